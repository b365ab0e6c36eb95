// What is lent to a call. A struct with a ghost field has a file of its own here: it imports every `ghost use`
// of its file, and those of the crate's other clauses name the struct.
ghost use Rattle.fields.specs.Bytes.{Bytes};

use crate::Book;

// The book, the lent image and the lent journal, for a call that only reads the two. A call that writes them has three parameters: each contract of a struct with
// a `&mut` has to promise that the reference is kept.
#[derive(Clone, Copy)]
pub struct Lent<'a> {
    pub book: Book,
    pub image: &'a [u8],
    pub journal: &'a [u8],
    pub ghost bytes: { Bytes image.now },
}
