// The worked cases of document 01 that are about settings, in its order, and how often each number comes back over a range that is wider
// than the legal one.
use line::{Asked, Settings, next_frame, work_out};
use refusals::code;
use spelling::show::Spaced;
use std::io;

fn settings(rt: &impl Print, s: u64, n: u64, shaping: u64, mark: u64) -> io::Result<()> {
    print!(rt; "settings s {s} n {n} shaping {shaping} mark {mark}:")?;
    let asked = Asked {
        role: 0,
        s,
        n,
        shaping,
        mark,
    };
    match work_out(asked) {
        Ok(settings) => println!(rt; "{}", Spaced(&settings.values())),
        Err(refusal) => println!(rt; " refused {}", refusal.number()),
    }
}

// The switching of a data frame, a word for each mapping frame. What `next_frame` asks holds of accepted settings. It is tested, since to show
// it takes a lemma, a contract and a `requires`, as in `tables`, for one program that prints. `tables` has this loop too, but makes a number of
// the words, and a shared one would take a closure for what is done with each.
fn switching(rt: &impl Print, settings: Settings) -> io::Result<()> {
    let Settings { frames, step, .. } = settings;
    let mut counter = 0;
    for _ in 0..frames {
        if frames > 16 || step > frames || counter >= frames {
            return Ok(());
        }
        let turn = next_frame(frames, step, counter);
        let word = if turn.high { "high" } else { "low" };
        print!(rt; " {word}")?;
        counter = turn.counter;
    }
    Ok(())
}

fn switched(rt: &impl Print, s: u64, n: u64) -> io::Result<()> {
    print!(rt; "switching s {s} n {n}:")?;
    let asked = Asked {
        role: 0,
        s,
        n,
        shaping: 0,
        mark: 1,
    };
    let Ok(settings) = work_out(asked) else {
        return Ok(());
    };
    switching(rt, settings)?;
    println!(rt)
}

// Number i of role 0 to 2, s 0 to 6, n 0 to 16, shaping 0 to 2 and mark 0 to 3, 4,284 in all. The remainders are a counter of mixed radix, in
// place of five loops, one in another: one range is a chain that counts.
fn asked_of(i: u64) -> Asked {
    Asked {
        role: i % 3,
        s: i / 3 % 7,
        n: i / 21 % 17,
        shaping: i / 357 % 3,
        mark: i / 1071,
    }
}

// How many of them get the number. It is a number and no `Refusal`, since 0 to 6 is what is printed.
fn answered(number: u32) -> usize {
    (0..4284)
        .filter(|i| code(work_out(asked_of(*i))) == number)
        .count()
}

pub fn cases(rt: &impl Print) -> io::Result<()> {
    println!(rt; "settings")?;
    for (s, n, shaping, mark) in [
        (4, 12, 0, 0),
        (4, 12, 1, 0),
        (4, 13, 0, 0),
        (4, 13, 0, 1),
        (4, 13, 0, 2),
        (0, 1, 0, 0),
        (0, 10, 0, 0),
        (5, 2, 0, 0),
        (5, 14, 1, 1),
        (5, 14, 1, 4294967297),
    ] {
        settings(rt, s, n, shaping, mark)?;
    }
    switched(rt, 5, 2)?;
    switched(rt, 5, 14)?;
    for number in 0..7 {
        println!(rt; "of 4284 settings get {number}: {}", answered(number))?;
    }
    Ok(())
}
