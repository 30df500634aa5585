// The check of bits that nothing is known of.
use bits::all_bits;
use fields::check::crc_of;

// The check of bytes, and nothing where they are not all bits.
pub fn tested_crc(bytes: &[u8]) -> Option<u64> {
    if !all_bits(bytes) {
        return None;
    }
    Some(crc_of(bytes))
}
