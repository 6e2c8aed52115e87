// A lent path (document 01: "a path is read as a lent buffer with a count beside it") whose buffer and count were tested: the form
// in which paths go from call to call behind the tests. Two functions alone have the buffer and the count apart, and say why:
// `inner::put_prefix` and `extension::inner::parts`.

ghost use Rattle.std.specs.Prelude.{◌≡◌};
ghost use Rattle.packed.specs.Readable.{Readable};

// A buffer in packed form, and how many of its components are meant.
#[derive(Clone, Copy)]
pub struct LentPath<'a> {
    pub bytes: &'a [u8],
    pub count: usize,
    ghost readable: { Readable bytes.now count },
}
