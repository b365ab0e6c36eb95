// The blocks of a lent image. A struct with a ghost field has a file of its own here: it imports every `ghost use`
// of its file, and those of the crate's other clauses name the struct.
ghost use Rattle.image.specs.Stand.{BlocksStand};

// Where the blocks begin, and how many there are, if the image holds a routine.
#[derive(Clone, Copy)]
pub struct Blocks<'a> {
    pub image: &'a [u8],
    pub start: usize,
    pub count: u32,
    ghost stand: { BlocksStand image.now start count },
}
