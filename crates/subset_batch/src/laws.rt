//! What holds of all requests.

ghost use Rattle.std.specs.Prelude.{◌≡◌, List, Ok};
ghost use Rattle.subset_batch.specs.Members.{Member};
ghost use Rattle.subset_batch.specs.Words.{request_words};
ghost use Rattle.subset_batch.specs.Reading.{request_of};
ghost use Rattle.subset_batch.specs.Written.{written, AreWritable};

/// A request that is written is read again: whatever members it has, in whatever order, where each has a name that is known
/// and that no other has, a value that its option may have, and texts in UTF-8.
pub fn read_again()
    ensures { (members : List Member) → AreWritable members → request_of (written members) ≡ Ok (request_words members) }
{}
