// Views of byte strings: four numbers of 32 bits in 16 bytes, little-endian.
// Follows arrow-data 60.1.0 src/byte_view.rs and the build_extend_view of src/transform/mod.rs, Apache-2.0; see NOTICE.
ghost use Rattle.std.specs.Prelude.{◌≡◌, ◌+◌, ◌*◌, ◌≤◌, length};
ghost use Rattle.number.specs.Number.{splice};
ghost use Rattle.utils.specs.byte_view.View.{view_at, view_bytes, reindexed_by, reviewed};

use number::Unsigned;

// The bytes that a view holds inline.
pub const MAX_INLINE_VIEW_LEN: u32 = 12;

#[derive(Clone, Copy)]
pub struct ByteView {
    pub length: u32,
    pub prefix: u32,
    pub buffer_index: u32,
    pub offset: u32,
}

// The view that stands in s at `at`.
pub fn from_bytes(s: &[u8], at: usize) -> ByteView
    requires { at + 16 ≤ length s.now }
    ensures { result ≡ view_at s.now at }
{
    ByteView {
        length: u32::read(s, at),
        prefix: u32::read(s, at + 4),
        buffer_index: u32::read(s, at + 8),
        offset: u32::read(s, at + 12),
    }
}

// The 16 bytes of v into room at `at`.
pub fn write_view(room: &mut [u8], at: usize, v: ByteView)
    requires { at + 16 ≤ length room.old }
    ensures { room.new ≡ splice at (view_bytes v) room.old }
{
    v.length.write(room, at);
    v.prefix.write(room, at + 4);
    v.buffer_index.write(room, at + 8);
    v.offset.write(room, at + 12);
}

// The view after `base` data buffers of earlier sources: a view of inline bytes stays.
pub fn reindexed(v: ByteView, base: u32) -> ByteView
    ensures { result ≡ reindexed_by base v }
{
    if v.length <= MAX_INLINE_VIEW_LEN {
        return v;
    }
    ByteView {
        buffer_index: v.buffer_index.wrapping_add(base),
        ..v
    }
}

// The first n views of those at `from`, each reindexed, into room at `at`.
pub fn extend_views(room: &mut [u8], at: usize, body: &[u8], from: usize, n: usize, base: u32)
    requires n_in_bounds { at + 16 * n ≤ length room.old }
    requires n_in_bounds_2 { from + 16 * n ≤ length body.now }
    ensures { room.new ≡ splice at (reviewed body.now from base n) room.old }
{
    for i in 0..n {
        let v = from_bytes(body, from + 16 * i);
        write_view(room, at + 16 * i, reindexed(v, base));
    }
}
