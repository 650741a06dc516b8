//! The law. It is the contract of a function that does nothing.
ghost use Rattle.request_laws.specs.Law.{WrittenIsRead};

/// The canonical line of a request is read as the words of which it was written, and these spell the request and its client. So
/// `read_request` gives back what `write_request` was given, or finds no memory, by its clause `complete`. The types keep
/// what the law asks of a request (`is_held`), but for one thing: a client stands only before a line that may name one.
pub fn a_written_line_is_read()
    ensures { WrittenIsRead }
{}
