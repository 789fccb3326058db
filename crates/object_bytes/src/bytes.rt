ghost use Rattle.std.specs.Prelude.{◌≡◌, ◌+◌, ◌≤◌, length, slice_range};
ghost use Rattle.object_bytes.specs.Record.{integer_at, natural_at};

/// The N bytes from a place on.
fn array_at<const N: usize>(bytes: &[u8], place: usize) -> [u8; N]
    requires { place + N ≤ length bytes.now }
    ensures { result ≡ slice_range bytes.now place (place + N) }
{
    let mut array = [0; N];
    array.copy_from_slice(&bytes[place..place + N]);
    array
}

/// The number in the 4 bytes from a place on, the highest first.
pub fn natural_at(bytes: &[u8], place: usize) -> u32
    requires { place + 4 ≤ length bytes.now }
    ensures { result ≡ natural_at place bytes.now }
{
    u32::from_be_bytes(array_at(bytes, place))
}

/// The integer in the 16 bytes from a place on, in two's complement, the highest first.
pub fn integer_at(bytes: &[u8], place: usize) -> i128
    requires { place + 16 ≤ length bytes.now }
    ensures { result ≡ integer_at place bytes.now }
{
    i128::from_be_bytes(array_at(bytes, place))
}
