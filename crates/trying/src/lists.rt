// The fronts of lists, and streams that are written byte by byte.
ghost use Rattle.std.specs.Prelude.{◌≡◌, ◌+◌, ◌/◌, ◌%◌, ◌≤◌, ◌<◌, length, set, take};

// The stream of document 01's mast book.
pub const MAST: [u8; 70] =
    *b"\x10\x00\x00\x00\x11\x00\x00\x01\x11\x00\x00\x02\x12\x00\x01\x01\x00\x0A\x11\x01\x00\x0B\x14\x00\x00\x00\x00\x01\x00\x05\x14\x00\x00\x02\x00\x02\x00\x14\x14\x00\x01\x01\x00\x02\x00\x03\x14\x00\x02\x00\x00\x00\x00\x07\x14\x00\x0A\x01\x00\x0A\x00\x01\x14\x00\x0A\x02\x00\x0B\x00\x04";

// The first so many of a list; all of it where it has fewer.
pub fn front<T>(list: &[T], count: usize) -> &[T]
    ensures { result.now ≡ take count list.now }
{
    let lent = count.min(list.len());
    &list[..lent]
}

// The same, to be written.
pub fn front_mut<T>(list: &mut [T], count: usize) -> &mut [T] {
    let lent = count.min(list.len());
    &mut list[..lent]
}

// Writes a byte, and gives the place after it; a full stream stays as it is.
pub fn put(stream: &mut [u8], at: usize, b: u32) -> usize
    ensures written { at < length stream.old → (result ≡ at + 1) × (stream.new ≡ set stream.old at (b % 256)) }
    ensures full { length stream.old ≤ at → (result ≡ at) × (stream.new ≡ stream.old) }
{
    if at >= stream.len() {
        return at;
    }
    stream[at] = (b % 256) as u8;
    at + 1
}

// Writes two bytes, high byte first.
pub fn put_pair(stream: &mut [u8], at: usize, w: u32) -> usize
    ensures { at + 1 < length stream.old → (result ≡ at + 2) × (stream.new ≡ set (set stream.old at (w / 256 % 256)) (at + 1) (w % 256)) }
{
    let next = put(stream, at, w / 256);
    put(stream, next, w)
}
