// The bytes that a view shows, as a part of the lent views or of the lent body of its data.
ghost use Rattle.std.specs.Prelude.{◌≡◌, ◌+◌, ◌≤◌, length};
ghost use Rattle.clauses.specs.Slices.{was};
ghost use Rattle.slot_reader.specs.view.Place.{place_of, part_of, Within};

// Where the bytes of a view stand: in the views, in the data, or nowhere in them.
#[derive(Clone, Copy)]
pub enum Place {
    Inline { at: usize, len: usize },
    Data { at: usize, len: usize },
    Outside,
}

// The place of the bytes of the view that stands in views at `at`. The data buffer that it names is the `size` bytes of body from `from` on.
pub fn view_place(views: &[u8], at: usize, body: &[u8], from: usize, size: usize) -> Place
    requires { at + 16 ≤ length views.now }
    ensures value { result ≡ place_of (was views) at (length (was body)) from size }
    ensures within { Within (length (was views)) (length (was body)) result }
{
    let v = utils::byte_view::from_bytes(views, at);
    let len = v.length as usize;
    if v.length <= utils::byte_view::MAX_INLINE_VIEW_LEN {
        return Place::Inline { at: at + 4, len };
    }
    let start = v.offset as usize;
    if body.len() < from {
        return Place::Outside;
    }
    if body.len() - from < size {
        return Place::Outside;
    }
    if size < start + len {
        return Place::Outside;
    }
    Place::Data {
        at: from + start,
        len,
    }
}

// The bytes that the view shows; none where they stand in neither slice, which view_place tells from a view of no bytes.
pub fn view_bytes<'a>(
    views: &'a [u8],
    at: usize,
    body: &'a [u8],
    from: usize,
    size: usize,
) -> &'a [u8]
    requires { at + 16 ≤ length views.now }
    ensures { result.now ≡ part_of (was views) (was body) (place_of (was views) at (length (was body)) from size) }
{
    match view_place(views, at, body, from, size) {
        Place::Inline { at: a, len: n } => &views[a..a + n],
        Place::Data { at: a, len: n } => &body[a..a + n],
        Place::Outside => &views[0..0],
    }
}
