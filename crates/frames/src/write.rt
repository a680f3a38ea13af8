// Writing lines of hexadecimal at a place of lent room: a digit, a byte, a run of bytes with its sum, and the line of a frame.
// Kind and place are numbers here, and room and place two parameters, since `line` and `Puts` promise it so; so is the place that is given where nothing
// fits.
ghost use Rattle.std.specs.Prelude.{◌≡◌, ◌+◌, ◌*◌, ◌<◌, ◌≤◌, [], ◌∷◌, length, nat_lt};
ghost use Rattle.meaning.specs.Room.{over};
ghost use Rattle.frames.specs.Frame.{byte_sum, digit, hex, line};
ghost use Rattle.frames.specs.Placing.{Puts};

// The character of a digit.
// By a test, since std gives a digit as an `Option` of a `char`, and writes hexadecimal only through `fmt`.
#[tactic(auto, unfolding(crate::specs::Frame::digit))]
fn digit_of(d: u8) -> u8
    requires { d < 16 }
    ensures { result ≡ digit d }
{
    if d < 10 { b'0' + d } else { b'a' - 10 + d }
}

// A byte at a place, as two digits.
fn put_byte(room: &mut [u8], at: usize, b: u8)
    requires { at + 2 ≤ length room.old }
    ensures { room.new ≡ over room.old at (hex (b ∷ [])) }
{
    room[at] = digit_of(b / 16);
    room[at + 1] = digit_of(b % 16);
}

// Bytes at a place, as pairs of digits; gives their sum, the carry thrown away, from a first byte on.
fn put_bytes(room: &mut [u8], at: usize, first: u8, bytes: &[u8]) -> u8
    requires { at + 2 * length bytes.now ≤ length room.old }
    ensures value { result ≡ byte_sum (first ∷ bytes.now) }
    ensures room_after { room.new ≡ over room.old at (hex bytes.now) }
{
    let mut sum = first;
    for (i, b) in bytes.iter().enumerate() {
        put_byte(room, at + 2 * i, *b);
        sum = sum.wrapping_add(*b);
    }
    sum
}

// The line of a frame at a place, in room that it fits in; gives the place behind it.
fn write_line(room: &mut [u8], at: usize, kind: u8, payload: &[u8]) -> usize
    requires { at + (2 * length payload.now + 5) ≤ length room.old }
    ensures value { result ≡ at + length (line kind payload.now) }
    ensures room_after { room.new ≡ over room.old at (line kind payload.now) }
{
    put_byte(room, at, kind);
    let sum = put_bytes(room, at + 2, kind, payload);
    let end = at + 2 + 2 * payload.len();
    put_byte(room, end, sum.wrapping_neg());
    room[end + 2] = b'\n';
    end + 3
}

// Whether so much room is too short for the line of so long a payload at a place. The room behind the place is halved, so that no sum is too great.
fn too_short(room: usize, at: usize, payload: usize) -> bool
    ensures { result ≡ nat_lt room (at + (2 * payload + 5)) }
{
    if room < at || room - at < 5 {
        return true;
    }
    (room - at - 5) / 2 < payload
}

// The line of a frame at a place; gives the place behind it. Where the room is too short, nothing is written, and the place is given.
pub fn put_line(room: &mut [u8], at: usize, kind: u8, payload: &[u8]) -> usize
    ensures { Puts room.old at (line kind payload.now) room.new result }
{
    if too_short(room.len(), at, payload.len()) {
        return at;
    }
    write_line(room, at, kind, payload)
}
