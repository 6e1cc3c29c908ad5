//! Facts about what the program writes, each the contract of a function that does nothing.
ghost use Rattle.std.specs.Prelude.{ℕ, ◌≤◌, length};
ghost use Rattle.lh_bucket.specs.declared.call.Reply.{Reply};
ghost use Rattle.lh_core.specs.Log.{Entry};
ghost use Rattle.lh_page.specs.declared.pair.Pair.{Pair};
ghost use Rattle.lh_script.specs.StepTexts.{entry_text};
ghost use Rattle.lh_script.specs.Texts.{line, reply_text, size_text};
ghost use Rattle.lh_script.specs.declared.notation.Notation.{Notation};
ghost use Rattle.lh_subcommands.specs.ContinuedLaws.{ScriptApartLaw, ApplyLaw, MigrateLaw, QueryLaw};
ghost use Rattle.lh_subcommands.specs.Devices.{longest_output_line};
ghost use Rattle.lh_subcommands.specs.ImageTexts.{record_text};
ghost use Rattle.lh_subcommands.specs.LongestLine.{IsEntryInLimits, IsNumber, IsRecordInLimits, IsReplyInLimits};
ghost use Rattle.lh_subcommands.specs.ServeLaws.{SameRepliesLaw};

use lh_image::laws::{an_image_leads, census_counts_pages, image_is_of_only_listing};
use lh_script::laws::words_are_short;

/// `query` of an image of a listing, and a script behind it, answers what the plain map of the listing answers.
pub fn query_answers_as_the_plain_map()
    ensures { QueryLaw }
{
    an_image_leads();
    image_is_of_only_listing();
}

/// `apply` of an image of a listing, and a script behind it, writes the canonical image of the listing that is left.
pub fn apply_writes_what_is_left()
    ensures { ApplyLaw }
{
    an_image_leads();
    image_is_of_only_listing();
}

/// `apply` of an image and a script without calls is `migrate`.
pub fn apply_without_calls_is_migrate()
    ensures { MigrateLaw }
{
    an_image_leads();
    image_is_of_only_listing();
    census_counts_pages();
}

/// `query` and `apply` do the same, whether the script stands behind the image or is an input of its own.
pub fn a_script_apart_is_one_behind()
    ensures { ScriptApartLaw }
{
    an_image_leads();
}

/// `serve` and `commands` answer the same lines alike.
pub fn serve_replies_as_commands()
    ensures { SameRepliesLaw }
{}

/// No line that `commands`, `steps` and `dump` write is longer than the room that is kept for one: so none wants memory
/// after the first write.
pub fn lines_have_room()
    ensures replies { (notation : Notation) (reply : Reply) → IsReplyInLimits reply →
        length (line (reply_text notation reply)) ≤ longest_output_line }
    ensures sizes { (buckets : ℕ) → IsNumber buckets → length (line (size_text buckets)) ≤ longest_output_line }
    ensures entries { (notation : Notation) (entry : Entry) → IsEntryInLimits entry →
        length (line (entry_text notation entry)) ≤ longest_output_line }
    ensures records { (notation : Notation) (bucket : ℕ) (pair : Pair) → IsNumber bucket → IsRecordInLimits pair →
        length (line (record_text notation bucket pair)) ≤ longest_output_line }
{
    words_are_short();
}
