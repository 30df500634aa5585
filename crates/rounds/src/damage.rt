// Labels that are damaged, one data frame for each legal setting with mark 1: how many get which number.
use refusals::{Refusal, code};
use std::io;
use trials::{BITS, LABELS, bits_from, setting_of};

// The first label is far too large.
fn too_large(labels: &mut [u16]) {
    if let Some(first) = labels.first_mut() {
        *first = 65535;
    }
}

// All eight 2D labels of the last mapping frame are the highest.
fn highest_rings(labels: &mut [u16], highest: u16) {
    let Some(from) = labels.len().checked_sub(16) else {
        return;
    };
    for symbol in labels[from..].chunks_exact_mut(4) {
        symbol[0] = highest;
        symbol[1] = highest;
    }
}

// The fourth Z of the first mapping frame is two steps on from the third.
fn two_steps(labels: &mut [u16]) {
    if labels.len() > 14 {
        labels[14] = (labels[10] % 4 + 2) % 4;
    }
}

// What the reader answers to a data frame of setting i, damaged.
fn answer_to<D: Fn(&mut [u16], u16)>(i: u64, damage: &D) -> Option<Result<(), Refusal>>
    requires { D.IsAlwaysCallable damage.now }
{
    let setting = setting_of(i)?;
    let mut labels = [0u16; LABELS];
    let labels = &mut labels[..setting.labels];
    writer::write(setting.state, &bits_from(i)[..setting.bits], labels).ok()?;
    damage(labels, setting.highest);
    let mut back = [0u8; BITS];
    let read = reader::read(setting.state, labels, &mut back[..setting.bits]);
    Some(read.map(|_| ()))
}

// How many of the settings answer so to a damage.
fn line_of<D: Fn(&mut [u16], u16)>(
    rt: &impl Print,
    words: &str,
    damage: D,
    answer: Result<(), Refusal>,
) -> io::Result<()>
    requires { D.IsAlwaysCallable damage }
{
    let answering = (0..336)
        .filter(|i| answer_to(*i, &damage) == Some(answer))
        .count();
    println!(rt; "{words} {}: {answering}", code(answer))
}

pub fn refusals(rt: &impl Print) -> io::Result<()> {
    let first = |labels: &mut [u16], _| too_large(labels);
    let steps = |labels: &mut [u16], _| two_steps(labels);
    let both = |labels: &mut [u16], highest| {
        highest_rings(labels, highest);
        too_large(labels);
    };
    line_of(
        rt,
        "a label far too large gets",
        first,
        Err(Refusal::OutOfRange),
    )?;
    line_of(
        rt,
        "the highest rings get",
        highest_rings,
        Err(Refusal::UnsentRings),
    )?;
    line_of(rt, "the highest rings get", highest_rings, Ok(()))?;
    line_of(rt, "a Z two steps on gets", steps, Err(Refusal::UnsentStep))?;
    line_of(rt, "a Z two steps on gets", steps, Ok(()))?;
    line_of(
        rt,
        "a label far too large and the highest rings get",
        both,
        Err(Refusal::OutOfRange),
    )
}
