// A reader of an archive: it stands on a record of a tested archive. The archive is tested once, when the reader is made.
#![tactic(auto)]

ghost use Rattle.std.specs.Prelude.{◌≡◌, ◌≢◌, length, IfOk, IfErr};
ghost use Rattle.archive.specs.Archive.{records, record_at};
ghost use Rattle.refusals.specs.Numbers.{told};
ghost use Rattle.refusals.specs.declared.Refusal.TheVariants.{Malformed};
ghost use Rattle.reader.specs.Reading.{held, standing, opened, advanced};
ghost use Rattle.reader.specs.Made.{MadeOf};

use archive::Archive;
use refusals::Refusal;

// The archive, if the bytes are one, and the number of the record on which the reader stands.
#[derive(Clone, Copy)]
pub struct Reader<'a> {
    archive: Option<Archive<'a>>,
    at: usize,
}

impl<'a> Reader<'a> {
    // A reader on record 0; the bytes are tested here and never again. Where they are no archive, every call on it is refused as
    // `Malformed`. Of a header alone it has no record to stand on, and every call is refused as `NoSuchRecord`.
    pub fn new(bytes: &'a [u8]) -> Reader<'a>
        ensures { MadeOf bytes.now result }
    {
        Reader {
            archive: Archive::open(bytes).ok(),
            at: 0,
        }
    }

    // How many records there are to stand on; `Malformed` where it holds no archive.
    fn count(self) -> Result<usize, Refusal>
        ensures ok { IfOk result (λ n. (n ≡ records (held self.entry)) × (length (held self.entry) ≢ 0)) }
        ensures err { IfErr result (λ refusal. (refusal ≡ Malformed) × (length (held self.entry) ≡ 0)) }
    {
        match self.archive {
            Some(archive) => Ok(archive.records()),
            None => Err(Refusal::Malformed),
        }
    }

    // Opens the reader at a record's number, in constant time. Refused, as `Malformed` or `NoSuchRecord`, it stays.
    #[tactic(auto, using(crate::proofs::Calls::opened_nothing, crate::proofs::Calls::opened_past, crate::proofs::Calls::opened_there))]
    pub fn open(&mut self, number: usize) -> Result<(), Refusal>
        ensures { (told result ≡ (opened self.old number).refusal) × (self.new ≡ standing self.old (opened self.old number)) }
    {
        if self.count()? <= number {
            return Err(Refusal::NoSuchRecord);
        }
        self.at = number;
        Ok(())
    }

    // The record on which the reader stands, as the caller's own 32 bytes; an empty part where it stands on none.
    pub fn record(self) -> &'a [u8]
        ensures { result.now ≡ record_at (held self.entry) self.entry.at }
    {
        match self.archive {
            Some(archive) => archive.record(self.at),
            None => &[],
        }
    }

    // Moves the reader on by one. Refused, as `Malformed` or, from the last record, as `NoSuchRecord`, it stays.
    #[tactic(auto, using(crate::proofs::Calls::opened_nothing, crate::proofs::Calls::opened_past))]
    pub fn advance(&mut self) -> Result<(), Refusal>
        ensures { (told result ≡ (advanced self.old).refusal) × (self.new ≡ standing self.old (advanced self.old)) }
    {
        if self.count()? <= self.at {
            return Err(Refusal::NoSuchRecord);
        }
        self.open(self.at + 1)
    }
}
