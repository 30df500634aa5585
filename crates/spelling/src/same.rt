// Numbers compared.

// As many on both sides, and each the same.
pub fn same(a: &[u64], b: &[u64]) -> bool {
    a == b
}
