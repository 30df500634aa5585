// The scrambler's two worked responses (clause 7): a 1 into an empty register, then 23 zeros, and the places of the ones that come out.
use scrambler::scramble_part;
use std::io;

const PULSE: [u8; 24] = [
    1, 0, 0, 0, 0, 0, 0, 0, 0, 0, 0, 0, 0, 0, 0, 0, 0, 0, 0, 0, 0, 0, 0, 0,
];

fn response(rt: &impl Print, role: u64) -> io::Result<()> {
    let mut out = [0u8; 24];
    scramble_part(role, 0, &PULSE, &mut out);
    for (place, bit) in out.iter().enumerate() {
        if *bit == 1 {
            print!(rt; " {place}")?;
        }
    }
    println!(rt)
}

pub fn responses(rt: &impl Print) -> io::Result<()> {
    print!(rt; "scrambler, calling end: ones at")?;
    response(rt, 0)?;
    print!(rt; "scrambler, answering end: ones at")?;
    response(rt, 1)
}
