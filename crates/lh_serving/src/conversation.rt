//! A conversation with a client, from bytes to bytes.
ghost use Rattle.std.specs.Prelude.{◌≡◌, ◌<◌, ◌++◌, ℕ, List, None, [], false, IfOk, length, option_map};
ghost use Rattle.std.specs.Bool.{OnFalse, OnTrue};
ghost use Rattle.lh_core.specs.Serial.{IsAtRest};
ghost use Rattle.lh_serving.specs.Answers.{FileSeen, HoldsFile, asked_by, file_of, first_file};
ghost use Rattle.lh_serving.specs.Conversations.{Beginning, IsAt, HasToldAll, beginning, pending};

use crate::answer::{Fault, put};
use crate::part::LinePart;
use crate::serving::answer_to;
use lh_addr::Config;
use lh_bucket::{Listing, Memory, PagedBucket};
use lh_core::{World, count_before};
use lh_script::{ClientRequest, Notation, cut_line, read_request};
use std::alloc::Global;
use std::marker::Model;

/// How much room there is for answers that wait, before more memory is taken for them.
const ROOM: usize = 66_000;

/// How keys and values are written, whether the answers go to a terminal, a file, whether memory has run out for a split
/// of it, what has come of its client's next line, the answers that the client wasn't told yet, and the file whose image
/// is to be told behind them.
#[derive(Drop)]
pub struct Conversation {
    notation: Notation,
    is_terminal: bool,
    world: World<PagedBucket>,
    records: u64,
    missed: bool,
    part: LinePart,
    waiting: String,
    image: Option<Listing>,
}

impl Model for Conversation {
    ghost use Rattle.lh_serving.specs.Conversations.{ConversationSeen};

    ghost Value = { ConversationSeen };

    ghost use Rattle.lh_serving.specs.ConversationView.{IsIdle, conversation_seen};

    ghost view = { conversation_seen };

    ghost invariant = { IsIdle };
}

/// What a line asks for, by what is kept of it.
fn asked(
    notation: Notation,
    is_terminal: bool,
    part: &LinePart,
) -> Result<Option<ClientRequest>, Fault>
    ensures { result ≡ asked_by notation is_terminal part.now }
{
    let Some(line) = part.line() else {
        return Err(Fault::TooLong);
    };
    match read_request(notation, line) {
        Ok(Some(ClientRequest::Image)) if is_terminal => Err(Fault::Terminal),
        Ok(request) => Ok(request),
        Err(fault) => Err(Fault::Line(fault)),
    }
}

impl Conversation {
    /// A conversation over a file with so many records, before anything was said.
    fn over(
        alloc: Global,
        notation: Notation,
        is_terminal: bool,
        world: World<PagedBucket>,
        records: u64,
    ) -> Result<Conversation, Memory>
        requires { IsAtRest world.state }
        ensures begun { (file : FileSeen) → HoldsFile world records false file →
            IfOk result (λ talk. IsAt (beginning notation is_terminal file) talk [] []) }
        ensures quiet { IfOk result HasToldAll }
    {
        let part = LinePart::new(alloc)?;
        let waiting = String::with_capacity(alloc, ROOM)?;
        Ok(Conversation {
            notation,
            is_terminal,
            world,
            records,
            missed: false,
            part,
            waiting,
            image: None,
        })
    }

    /// A conversation over an empty file, before anything was said. An image isn't written to a terminal.
    pub fn new(
        alloc: Global,
        notation: Notation,
        is_terminal: bool,
        config: Config,
    ) -> Result<Conversation, Memory>
        ensures begun { IfOk result (λ talk. IsAt (beginning notation is_terminal (first_file config)) talk [] []) }
        ensures quiet { IfOk result HasToldAll }
    {
        Conversation::over(alloc, notation, is_terminal, World::new(alloc, config)?, 0)
    }

    /// A conversation over the file of a listing, before anything was said.
    pub fn open_from(
        alloc: Global,
        notation: Notation,
        is_terminal: bool,
        listing: &Listing,
    ) -> Result<Conversation, Memory>
        ensures begun { IfOk result (λ talk. IsAt (beginning notation is_terminal (file_of listing.now)) talk [] []) }
        ensures quiet { IfOk result HasToldAll }
    {
        let records = count_before(listing, 0)?;
        let world = World::open_from(alloc, listing)?;
        Conversation::over(alloc, notation, is_terminal, world, records)
    }

    /// Hears bytes of the client up to the first LF, or all of them where there is none: what is behind it. A line that
    /// is complete then is answered, and the answer waits. In whatever pieces the bytes come, the answers are the same.
    ///
    /// An image that waits has to be told first. It fails where there is no memory for an answer to wait; with less
    /// than 65,536 bytes waiting there is.
    pub fn hear<'a>(&mut self, bytes: &'a [u8]) -> Result<&'a [u8], Memory>
        requires { self.old.image ≡ None }
        ensures heard { (start : Beginning) (heard answers : List ℕ) → IsAt start self.old heard answers →
            IfOk result (λ behind. (taken : List ℕ) × (bytes.now ≡ taken ++ behind.now)
            × IsAt start self.new (heard ++ taken) answers) }
        ensures shorter { 0 < length bytes.now → IfOk result (λ behind. length behind.now < length bytes.now) }
    {
        match cut_line(bytes) {
            None => {
                self.part.add(bytes);
                Ok(&bytes[bytes.len()..])
            }
            Some((line, behind)) => {
                self.part.add(line);
                let asked = asked(self.notation, self.is_terminal, &self.part);
                let said = answer_to(&mut self.world, &mut self.records, &mut self.missed, asked);
                self.part.clear();
                put(&mut self.waiting, self.notation, said.answer)?;
                self.image = said.image;
                Ok(behind)
            }
        }
    }

    /// The lines that wait to be told.
    pub fn waiting(&self) -> &[u8]
        ensures { result.now ≡ self.now.waiting }
    {
        self.waiting.as_bytes()
    }

    /// The file whose image is to be told behind them, if one waits.
    pub fn image(&self) -> Option<&Listing>
        ensures { option_map (λ l. l.now) result ≡ self.now.image }
    {
        self.image.as_ref()
    }

    /// Whether memory has run out for a split that a call asked for. Until then the file has just as many buckets as
    /// the split policy gives; the next record that is added asks for the split again.
    pub fn has_missed_a_split(&self) -> bool
        ensures { result ≡ self.now.missed }
    {
        self.missed
    }

    /// Whether nothing waits to be told.
    pub fn is_quiet(&self) -> bool
        ensures quiet { OnTrue result (HasToldAll self.now) }
        ensures not { OnFalse result (¬ (HasToldAll self.now)) }
    {
        self.waiting.is_empty() && self.image.is_none()
    }

    /// The client was told all that waited.
    pub fn note_told(&mut self)
        ensures told { (start : Beginning) (heard answers : List ℕ) → IsAt start self.old heard answers →
            IsAt start self.new heard (answers ++ pending self.old) }
        ensures quiet { HasToldAll self.new }
    {
        self.waiting.clear();
        self.image = None;
    }
}
