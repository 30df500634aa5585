// All permitted sets of fields, and all bodies of seventeen bits.
use bits::put_digits;
use fields::check::put_crc;
use info::info0::{Info0, read, write};
use refusals::Refusal;
use spelling::check::tested_crc;
use std::io;

// 01110010, which are the digits of 2 + 4 + 8 + 64.
const SYNC: u64 = 78;

// Number i of the 73,728 permitted sets: twelve fields of one bit, difference 0 to 5 and clock 0 to 2. The remainders are a counter of mixed
// radix, in place of fourteen loops, one in another.
fn permitted(i: u64) -> Info0 {
    Info0 {
        support_2743: i % 2,
        support_2800: i / 2 % 2,
        support_3429: i / 4 % 2,
        low_3000: i / 8 % 2,
        high_3000: i / 16 % 2,
        low_3200: i / 32 % 2,
        high_3200: i / 64 % 2,
        allowed_3429: i / 128 % 2,
        reduction: i / 256 % 2,
        cme: i / 512 % 2,
        mark: i / 1024 % 2,
        acknowledged: i / 2048 % 2,
        difference: i / 4096 % 6,
        clock: i / 24576 % 3,
    }
}

// Is the set written, and read back as it was?
fn comes_back(i: u64) -> bool {
    let mut bits = [9u8; 49];
    let fields = permitted(i);
    write(fields, &mut bits).is_ok() && read(&bits) == Ok(fields)
}

// The sequence whose bits 12 to 28 are the digits of i, with their own check.
fn sequence_of(i: u64) -> Option<[u8; 49]> {
    let mut bits = [1u8; 49];
    put_digits(SYNC, 8, &mut bits, 4);
    put_digits(i, 17, &mut bits, 12);
    let check = tested_crc(&bits[12..29])?;
    put_crc(check, &mut bits[29..45]);
    Some(bits)
}

// How many of all 131,072 the reader refuses so, or does not refuse. A body with no check would be dropped, but all are bits; the two numbers
// that are printed make 131,072, so that one dropped would be seen.
fn answered(refusal: Option<Refusal>) -> usize {
    (0..131072)
        .filter_map(sequence_of)
        .filter(|bits| read(bits).err() == refusal)
        .count()
}

pub fn sweeps(rt: &impl Print) -> io::Result<()> {
    let back = (0..73728).filter(|i| comes_back(*i)).count();
    println!(rt;
        "\nsweeps\nof 73728 permitted sets of fields, written and read back as they were: {back}"
    )?;
    println!(rt;
        "of 131072 bodies of 17 bits with their own check, read with 0: {}",
        answered(None)
    )?;
    println!(rt;
        "of 131072 bodies of 17 bits with their own check, refused with 18: {}",
        answered(Some(Refusal::FieldOutOfRange))
    )
}
