// What a call asks for: its numbers come from C one by one, and are put together here, once. As a literal it would stand at four calls, a
// line for each number, and be no plainer there.
ghost use Rattle.std.specs.Prelude.{◌≡◌};
ghost use Rattle.line.specs.Asked.{asked};

use line::Asked;

pub fn asked_of(role: u64, s: u64, n: u64, shaping: u64, mark: u64) -> Asked
    ensures { result ≡ asked role s n shaping mark }
{
    Asked {
        role,
        s,
        n,
        shaping,
        mark,
    }
}
