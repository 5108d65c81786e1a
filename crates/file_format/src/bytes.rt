// Numbers in a file's bytes, the lowest byte first, and coordinates by their 32 bits.
ghost use Rattle.std.specs.Prelude.{◌≡◌, ◌+◌, ◌<◌, ◌≤◌, length, get_or};
ghost use Rattle.file_format.specs.Bytes.{bytes_of, bits_of, coordinate_of, number_at};
ghost use Rattle.file_format.specs.Blocks.{Put};

// The number in the two bytes at a place.
pub fn two_at(bytes: &[u8], at: usize) -> usize
    requires { at + 2 ≤ length bytes.now }
    ensures value { result ≡ number_at bytes.now at 2 }
    ensures upper_bound { result < 65536 }
{
    usize::from(u16::from_le_bytes([bytes[at], bytes[at + 1]]))
}

// The number in the four bytes at a place.
pub fn four_at(bytes: &[u8], at: usize) -> usize
    requires { at + 4 ≤ length bytes.now }
    ensures value { result ≡ number_at bytes.now at 4 }
    ensures upper_bound { result < 4294967296 }
{
    u32::from_le_bytes([bytes[at], bytes[at + 1], bytes[at + 2], bytes[at + 3]]) as usize
}

// The coordinate with these 32 bits.
pub fn coordinate_of(bits: usize) -> i32
    requires { bits < 4294967296 }
    ensures { result ≡ coordinate_of bits }
{
    (bits as u32).cast_signed()
}

// The coordinate in the four bytes at a place.
pub fn coordinate_at(bytes: &[u8], at: usize) -> i32
    requires { at + 4 ≤ length bytes.now }
    ensures { result ≡ coordinate_of (number_at bytes.now at 4) }
{
    coordinate_of(four_at(bytes, at))
}

// The 32 bits of a coordinate, as a number.
pub fn bits_of(coordinate: i32) -> usize
    ensures { result ≡ bits_of coordinate }
{
    coordinate.cast_unsigned() as usize
}

// A number written into two bytes.
pub fn put_two(file: &mut [u8], at: usize, number: usize)
    requires { at + 2 ≤ length file.old }
    ensures { Put file.old at (bytes_of 2 number) file.new }
{
    let bytes = ((number % 65536) as u16).to_le_bytes();
    file[at..at + 2].copy_from_slice(&bytes);
}

// A number written into four bytes.
pub fn put_four(file: &mut [u8], at: usize, number: usize)
    requires { at + 4 ≤ length file.old }
    ensures { Put file.old at (bytes_of 4 number) file.new }
{
    let bytes = ((number % 4294967296) as u32).to_le_bytes();
    file[at..at + 4].copy_from_slice(&bytes);
}
