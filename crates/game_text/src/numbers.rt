ghost use Rattle.std.specs.Prelude.{◌≡◌, ◌<◌, ◌==◌, pos, negsuc, ◌≤ℤ◌, length, map, slice_index_or, unsigned_abs, IsTrue};
ghost use Rattle.std.specs.List.{list_all};
ghost use Rattle.text_forms.specs.Rows as rows;

/// Returns a number of a row, which must fit in 8 bits.
pub(crate) fn byte_at(numbers: &[i64], i: usize) -> u8
    requires index { i < length numbers.now }
    requires low { pos 0 ≤ℤ slice_index_or numbers.now i (pos 0) }
    requires high { slice_index_or numbers.now i (pos 0) ≤ℤ pos 255 }
    ensures { result ≡ unsigned_abs (slice_index_or numbers.now i (pos 0)) }
{
    numbers[i] as u8
}

/// Returns a number of a row, which must fit in 16 bits.
pub(crate) fn dollars_at(numbers: &[i64], i: usize) -> u16
    requires index { i < length numbers.now }
    requires low { pos 0 ≤ℤ slice_index_or numbers.now i (pos 0) }
    requires high { slice_index_or numbers.now i (pos 0) ≤ℤ pos 65535 }
    ensures { result ≡ unsigned_abs (slice_index_or numbers.now i (pos 0)) }
{
    numbers[i] as u16
}

/// Returns a number of a row, which must fit in 8 bits with its sign.
pub(crate) fn signed_at(numbers: &[i64], i: usize) -> i8
    requires index { i < length numbers.now }
    requires low { negsuc 127 ≤ℤ slice_index_or numbers.now i (pos 0) }
    requires high { slice_index_or numbers.now i (pos 0) ≤ℤ pos 127 }
    ensures { result ≡ slice_index_or numbers.now i (pos 0) }
{
    numbers[i] as i8
}

/// Returns whether a number of a row is the expected one.
pub(crate) fn is_due(numbers: &[i64], i: usize, due: u8) -> bool
    requires { i < length numbers.now }
    ensures { result ≡ (unsigned_abs (slice_index_or numbers.now i (pos 0)) == due) }
{
    numbers[i].unsigned_abs() == u64::from(due)
}

/// Returns the numbers of a row, each of which must fit in 8 bits.
pub(crate) fn bytes_of<const N: usize>(numbers: &[i64]) -> [u8; N]
    requires count { length numbers.now ≡ N }
    requires range { IsTrue (list_all (λ n. rows.is_in (rows.within 0 255) n) numbers.now) }
    ensures { result ≡ map unsigned_abs numbers.now }
{
    let mut bytes = [0; N];
    for (i, number) in numbers.iter().enumerate() {
        bytes[i] = *number as u8;
    }
    bytes
}
