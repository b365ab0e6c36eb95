// The blocks of a file that a walk accepted before. A struct with a ghost field has a file of its own here: it imports every `ghost use`
// of its file, and those of the crate's other clauses name the struct.
ghost use Rattle.fields.specs.Bytes.{Bytes};

// `count` blocks, one after the other from `start` on.
#[derive(Clone, Copy)]
pub struct Blocks<'a> {
    pub s: &'a [u8],
    pub start: usize,
    pub count: usize,
    ghost bytes: { Bytes s.now },
}
