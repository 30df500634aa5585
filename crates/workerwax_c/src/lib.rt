// Workerwax, crate `workerwax_c`: the static library that C links (docs/INTERFACE.md, include/workerwax.h). It has the names of the calls.
//
// What does it do? Each export hands its numbers and slices to the call of that name in crate `workerwax` and gives back its number. It
// promises what that call promises, word for word, and asks nothing.
// Why is it a crate of its own? No crate can stand on a static library, and `workerwax` is a library, so that its calls can be used and
// tried from Rattle too.
#![tactic(auto)]

ghost use Rattle.line.specs.Asked.{asked};
ghost use Rattle.line.specs.Settings.{worked_of};
ghost use Rattle.rings.specs.Mapping.{MapAnswer};
ghost use Rattle.coder.specs.State.{short_started_of, started_of, state_of};
ghost use Rattle.workerwax.specs.Calls.{ParametersCall, RankCall, ReadCall, StartCall, WriteCall};
ghost use Rattle.workerwax.specs.Info.{Info0ReadCall, Info0WriteCall, Info1cReadCall, Info1cWriteCall};
ghost use Rattle.workerwax.specs.Jp.{JpReadCall, JpWriteCall};

use workerwax::{data, digital, informing, mapping, starting};

// N P b r K q M L of the settings that are asked for.
#[unsafe(no_mangle)]
pub extern "C" fn ww_parameters(
    role: u64,
    s: u64,
    n: u64,
    shaping: u64,
    mark: u64,
    answer: &mut [u8],
) -> u32
    ensures { ParametersCall (worked_of (asked role s n shaping mark)) answer.old result answer.new }
{
    starting::ww_parameters(role, s, n, shaping, mark, answer)
}

// A line at its start, with the register and Z that it is given.
#[unsafe(no_mangle)]
pub extern "C" fn ww_start(
    role: u64,
    s: u64,
    n: u64,
    shaping: u64,
    mark: u64,
    register: u64,
    z: u64,
    answer: &mut [u8],
) -> u32
    ensures { StartCall (started_of (state_of (asked role s n shaping mark) register z)) answer.old result answer.new }
{
    starting::ww_start(role, s, n, shaping, mark, register, z, answer)
}

// A line at its start, with shaping 0, register 0 and Z 0.
#[unsafe(no_mangle)]
pub extern "C" fn ww_short_start(role: u64, s: u64, n: u64, mark: u64, answer: &mut [u8]) -> u32
    ensures { StartCall (short_started_of role s n mark) answer.old result answer.new }
{
    starting::ww_short_start(role, s, n, mark, answer)
}

// Eight rings for a number.
#[unsafe(no_mangle)]
pub extern "C" fn ww_map(k: u64, m: u64, number: u64, rings: &mut [u8]) -> u32
    ensures { MapAnswer k m number rings.old result rings.new }
{
    mapping::ww_map(k, m, number, rings)
}

// The number of eight rings, into four bytes.
#[unsafe(no_mangle)]
pub extern "C" fn ww_rank(k: u64, m: u64, rings: &[u8], answer: &mut [u8]) -> u32
    ensures { RankCall k m rings.now answer.old result answer.new }
{
    mapping::ww_rank(k, m, rings, answer)
}

// The labels of a data frame's bits, two bytes each, low byte first, and the state that comes next.
#[unsafe(no_mangle)]
pub extern "C" fn ww_write(
    role: u64,
    s: u64,
    n: u64,
    shaping: u64,
    mark: u64,
    register: u64,
    z: u64,
    bits: &[u8],
    labels: &mut [u8],
    answer: &mut [u8],
) -> u32
    ensures { WriteCall (state_of (asked role s n shaping mark) register z) bits.now labels.old answer.old result labels.new answer.new }
{
    data::ww_write(role, s, n, shaping, mark, register, z, bits, labels, answer)
}

// The bits of a data frame's labels, and the state that comes next.
#[unsafe(no_mangle)]
pub extern "C" fn ww_read(
    role: u64,
    s: u64,
    n: u64,
    shaping: u64,
    mark: u64,
    register: u64,
    z: u64,
    labels: &[u8],
    bits: &mut [u8],
    answer: &mut [u8],
) -> u32
    ensures { ReadCall (state_of (asked role s n shaping mark) register z) labels.now bits.old answer.old result bits.new answer.new }
{
    data::ww_read(role, s, n, shaping, mark, register, z, labels, bits, answer)
}

// The fields of an INFO0 sequence that was received.
#[unsafe(no_mangle)]
pub extern "C" fn ww_info0_read(bits: &[u8], fields: &mut [u8]) -> u32
    ensures { Info0ReadCall bits.now fields.old result fields.new }
{
    informing::ww_info0_read(bits, fields)
}

// The INFO0 sequence of some fields.
#[unsafe(no_mangle)]
pub extern "C" fn ww_info0_write(fields: &[u8], bits: &mut [u8]) -> u32
    ensures { Info0WriteCall fields.now bits.old result bits.new }
{
    informing::ww_info0_write(fields, bits)
}

// The line report of an INFO1c sequence that was received: the fields, the count in 32 bits, and the offset in hertz.
#[unsafe(no_mangle)]
pub extern "C" fn ww_info1c_read(bits: &[u8], report: &mut [u8]) -> u32
    ensures { Info1cReadCall bits.now report.old result report.new }
{
    informing::ww_info1c_read(bits, report)
}

// The INFO1c sequence of some fields, whose count comes in 32 bits.
#[unsafe(no_mangle)]
pub extern "C" fn ww_info1c_write(fields: &[u8], bits: &mut [u8]) -> u32
    ensures { Info1cWriteCall fields.now bits.old result bits.new }
{
    informing::ww_info1c_write(fields, bits)
}

// What a Jp sequence that was received says.
#[unsafe(no_mangle)]
pub extern "C" fn ww_jp_read(bits: &[u8], answer: &mut [u8]) -> u32
    ensures { JpReadCall bits.now answer.old result answer.new }
{
    digital::ww_jp_read(bits, answer)
}

// The Jp sequence of a fraction and both sizes.
#[unsafe(no_mangle)]
pub extern "C" fn ww_jp_write(
    fraction: u64,
    training: u64,
    renegotiation: u64,
    bits: &mut [u8],
) -> u32
    ensures { JpWriteCall fraction training renegotiation bits.old result bits.new }
{
    digital::ww_jp_write(fraction, training, renegotiation, bits)
}
