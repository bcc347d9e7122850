// For tests only, and no part of the interface that callers have: the calls of the bit reader that crate exports leaves out, for a
// test program in C or Rust that holds them to the original (host/compare).
//
// Each function makes one call of bitio and takes its answer apart; its contract cites that call's definition.
#![tactic(auto)]

mod answers;

ghost use Rattle.std.specs.Prelude.{◌≡◌};
ghost use Rattle.bitio.specs.Cursors.{opened, whole_of, position_of, length_of, remaining_of, end_of, skipped, skipped_all, sub_reader_lem};
ghost use Rattle.bitio.specs.Reads.{read_bit_lem, read_u8_lem, read_u16_lem, read_u32_lem, read_i32_lem, read_u64_lem};
ghost use Rattle.probes.specs.Answers.{cursor_of_lem, reader_given_lem, opened_gives_lem, measured_gives_lem, ended_gives_lem, skipped_gives_lem, sub_gives, bit_gives_lem, number_gives_lem, i32_gives_lem};

// A cursor: its window's first bit, the next bit of the window, the window's length.
#[repr(C)]
#[derive(Clone, Copy)]
pub struct VrfProbeCursor {
    pub start: u64,
    pub pos: u64,
    pub len: u64,
}

// What a call gives: the refusal's number, 0 where there is none, and its values; the value read or told, as its type has it; where the
// cursor stands, refused or not; the reader that `new`, `open` and `sub_reader` make. The rest is 0 and false.
#[repr(C)]
#[derive(Clone, Copy)]
pub struct VrfProbe {
    pub refusal: u32,
    pub first: u64,
    pub second: u64,
    pub third: u64,
    pub value: u64,
    pub signed: i32,
    pub truth: bool,
    pub position: u64,
    pub reader: VrfProbeCursor,
}

// ---- readers

#[unsafe(no_mangle)]
pub extern "C" fn vrf_probe_new(bytes: &[u8]) -> VrfProbe
    ensures { result ≡ reader_given_lem (whole_of bytes.now) 0 }
{
    let c = bitio::new(bytes);
    answers::reader_given(c, 0)
}

#[unsafe(no_mangle)]
pub extern "C" fn vrf_probe_open(bytes: &[u8], count: u64) -> VrfProbe
    ensures { result ≡ opened_gives_lem (opened bytes.now count) }
{
    let answer = bitio::open(bytes, count);
    answers::opened_gives(answer)
}

#[unsafe(no_mangle)]
pub extern "C" fn vrf_probe_position(bytes: &[u8], cursor: VrfProbeCursor) -> VrfProbe
    ensures { result ≡ measured_gives_lem cursor.pos (position_of bytes.now (cursor_of_lem cursor)) }
{
    let c = answers::cursor_of(cursor);
    let answer = bitio::position(bytes, c);
    answers::measured_gives(answer, c.pos)
}

#[unsafe(no_mangle)]
pub extern "C" fn vrf_probe_len_bits(bytes: &[u8], cursor: VrfProbeCursor) -> VrfProbe
    ensures { result ≡ measured_gives_lem cursor.pos (length_of bytes.now (cursor_of_lem cursor)) }
{
    let c = answers::cursor_of(cursor);
    let answer = bitio::len_bits(bytes, c);
    answers::measured_gives(answer, c.pos)
}

#[unsafe(no_mangle)]
pub extern "C" fn vrf_probe_bits_remaining(bytes: &[u8], cursor: VrfProbeCursor) -> VrfProbe
    ensures { result ≡ measured_gives_lem cursor.pos (remaining_of bytes.now (cursor_of_lem cursor)) }
{
    let c = answers::cursor_of(cursor);
    let answer = bitio::bits_remaining(bytes, c);
    answers::measured_gives(answer, c.pos)
}

#[unsafe(no_mangle)]
pub extern "C" fn vrf_probe_at_end(bytes: &[u8], cursor: VrfProbeCursor) -> VrfProbe
    ensures { result ≡ ended_gives_lem cursor.pos (end_of bytes.now (cursor_of_lem cursor)) }
{
    let c = answers::cursor_of(cursor);
    let answer = bitio::at_end(bytes, c);
    answers::ended_gives(answer, c.pos)
}

#[unsafe(no_mangle)]
pub extern "C" fn vrf_probe_skip_bits(bytes: &[u8], cursor: VrfProbeCursor, count: u64) -> VrfProbe
    ensures { result ≡ skipped_gives_lem cursor.pos (skipped bytes.now (cursor_of_lem cursor) count) }
{
    let c = answers::cursor_of(cursor);
    let answer = bitio::skip_bits(bytes, c, count);
    answers::skipped_gives(answer, c.pos)
}

#[unsafe(no_mangle)]
pub extern "C" fn vrf_probe_skip_remaining(bytes: &[u8], cursor: VrfProbeCursor) -> VrfProbe
    ensures { result ≡ skipped_gives_lem cursor.pos (skipped_all bytes.now (cursor_of_lem cursor)) }
{
    let c = answers::cursor_of(cursor);
    let answer = bitio::skip_remaining(bytes, c);
    answers::skipped_gives(answer, c.pos)
}

#[unsafe(no_mangle)]
pub extern "C" fn vrf_probe_sub_reader(bytes: &[u8], cursor: VrfProbeCursor, count: u64) -> VrfProbe
    ensures { result ≡ sub_gives cursor.pos (sub_reader_lem bytes.now (cursor_of_lem cursor) count) }
{
    let c = answers::cursor_of(cursor);
    let answer = bitio::sub_reader(bytes, c, count);
    answers::sub_gives(answer, c.pos)
}

// ---- reads

#[unsafe(no_mangle)]
pub extern "C" fn vrf_probe_read_bit(bytes: &[u8], cursor: VrfProbeCursor) -> VrfProbe
    ensures { result ≡ bit_gives_lem cursor.pos (read_bit_lem bytes.now (cursor_of_lem cursor)) }
{
    let c = answers::cursor_of(cursor);
    let answer = bitio::read_bit(bytes, c);
    answers::bit_gives(answer, c.pos)
}

#[unsafe(no_mangle)]
pub extern "C" fn vrf_probe_read_u8(bytes: &[u8], cursor: VrfProbeCursor) -> VrfProbe
    ensures { result ≡ number_gives_lem cursor.pos (read_u8_lem bytes.now (cursor_of_lem cursor)) }
{
    let c = answers::cursor_of(cursor);
    let answer = bitio::read_u8(bytes, c);
    answers::number_gives(answer, c.pos)
}

#[unsafe(no_mangle)]
pub extern "C" fn vrf_probe_read_u16(bytes: &[u8], cursor: VrfProbeCursor) -> VrfProbe
    ensures { result ≡ number_gives_lem cursor.pos (read_u16_lem bytes.now (cursor_of_lem cursor)) }
{
    let c = answers::cursor_of(cursor);
    let answer = bitio::read_u16(bytes, c);
    answers::number_gives(answer, c.pos)
}

#[unsafe(no_mangle)]
pub extern "C" fn vrf_probe_read_u32(bytes: &[u8], cursor: VrfProbeCursor) -> VrfProbe
    ensures { result ≡ number_gives_lem cursor.pos (read_u32_lem bytes.now (cursor_of_lem cursor)) }
{
    let c = answers::cursor_of(cursor);
    let answer = bitio::read_u32(bytes, c);
    answers::number_gives(answer, c.pos)
}

#[unsafe(no_mangle)]
pub extern "C" fn vrf_probe_read_i32(bytes: &[u8], cursor: VrfProbeCursor) -> VrfProbe
    ensures { result ≡ i32_gives_lem cursor.pos (read_i32_lem bytes.now (cursor_of_lem cursor)) }
{
    let c = answers::cursor_of(cursor);
    let answer = bitio::read_i32(bytes, c);
    answers::i32_gives(answer, c.pos)
}

#[unsafe(no_mangle)]
pub extern "C" fn vrf_probe_read_u64(bytes: &[u8], cursor: VrfProbeCursor) -> VrfProbe
    ensures { result ≡ number_gives_lem cursor.pos (read_u64_lem bytes.now (cursor_of_lem cursor)) }
{
    let c = answers::cursor_of(cursor);
    let answer = bitio::read_u64(bytes, c);
    answers::number_gives(answer, c.pos)
}
