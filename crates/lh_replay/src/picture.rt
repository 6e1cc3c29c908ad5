//! The parts of a picture, made of events and what was told of them.
ghost use Rattle.std.specs.Prelude.{◌≡◌, ◌+◌, ◌*◌, ◌<◌, ◌≤◌, drop, false, length, true};
ghost use Rattle.lh_replay.specs.Lanes.{lane_of, rows_until};
ghost use Rattle.lh_replay.specs.Picture.{caption_of, event_at, heading_of, picture_canvas_of, shape_of, step_of};
ghost use Rattle.lh_replay.specs.Picture.{told_at};
ghost use Rattle.lh_replay.specs.Sizes.{box_height, row_height};

use crate::elements::{Heading, PictureCaption, Step};
use crate::label::EventLabel;
use crate::lanes::{lane_count, lane_of, rehashes, rows_until};
use crate::shapes::Shape;
use crate::sizes::{BOX_HEIGHT, EMPTY_HEIGHT, LANE_WIDTH, LANES_LEFT, ROW_HEIGHT, ROWS_TOP};
use lh_core::{Effect, Event, Refusal};
use lh_draw::Canvas;

/// What is drawn on.
#[tactic(auto, unfolding(crate::specs::Picture::picture_canvas_of))]
pub fn canvas_of(events: &[Event]) -> Canvas
    ensures { result ≡ picture_canvas_of events.now }
{
    Canvas {
        width: LANES_LEFT + LANE_WIDTH * lane_count(events).max(2),
        height: EMPTY_HEIGHT + ROW_HEIGHT * events.len() as u128,
    }
}

/// What the picture is of.
#[tactic(auto, unfolding(crate::specs::Picture::caption_of))]
pub fn caption_of(events: &[Event]) -> PictureCaption
    ensures { result ≡ caption_of events.now }
{
    PictureCaption {
        steps: events.len(),
    }
}

/// The heading of a lane.
#[tactic(auto, unfolding(crate::specs::Picture::heading_of))]
pub fn heading_of(events: &[Event], lane: u32) -> Heading
    requires { lane ≤ 256 }
    ensures { result ≡ heading_of events.now lane }
{
    Heading {
        lane,
        left: LANES_LEFT + LANE_WIDTH * lane,
        height: BOX_HEIGHT + ROW_HEIGHT * events.len() as u128,
    }
}

/// How high a box is that begins in a row of a lane: it reaches down to the step that lets its bucket go.
fn box_height(lane: u32, events: &[Event], entries: &[Result<Effect, Refusal>], row: usize) -> u128
    requires same { length entries.now ≡ length events.now }
    requires row { row < length events.now }
    ensures { result ≡ box_height
        + row_height * rows_until false lane (drop (row + 1) events.now) (drop (row + 1) entries.now) }
{
    BOX_HEIGHT + ROW_HEIGHT * rows_until(false, lane, events, entries, row + 1) as u128
}

/// What is drawn of a step beside its label. The rows below are looked through only for a box or an arrow, down to its
/// end; a lane has one box and one arrow at a time.
fn shape_at(events: &[Event], entries: &[Result<Effect, Refusal>], row: usize) -> Shape
    requires same { length entries.now ≡ length events.now }
    requires row { row < length events.now }
    ensures { result ≡ shape_of (event_at events.now row) (told_at entries.now row)
        (rows_until false (lane_of (event_at events.now row)) (drop (row + 1) events.now) (drop (row + 1) entries.now))
        (rows_until true (lane_of (event_at events.now row)) (drop (row + 1) events.now) (drop (row + 1) entries.now)) }
{
    let event = events[row];
    let lane = lane_of(&event);
    match entries[row] {
        Ok(Effect::Locked { bucket, .. }) => Shape::Held {
            bucket,
            height: box_height(lane, events, entries, row),
        },
        Ok(Effect::Both { old, new }) => Shape::BothHeld {
            old,
            new,
            height: box_height(lane, events, entries, row),
        },
        Ok(Effect::Aim { .. }) if rehashes(&event) => Shape::Way {
            down: ROW_HEIGHT * rows_until(true, lane, events, entries, row + 1) as u128,
        },
        Ok(Effect::Moved { .. }) => Shape::Moved,
        Ok(Effect::Point { .. }) => Shape::Pointed,
        _ => Shape::Plain,
    }
}

/// A step of the picture.
pub fn step_of(events: &[Event], entries: &[Result<Effect, Refusal>], row: usize) -> Step
    requires same { length entries.now ≡ length events.now }
    requires row { row < length events.now }
    ensures { result ≡ step_of events.now entries.now row }
{
    let event = events[row];
    Step {
        number: row as u128 + 1,
        top: ROWS_TOP + ROW_HEIGHT * row as u128,
        left: LANES_LEFT + LANE_WIDTH * lane_of(&event),
        label: EventLabel {
            event,
            entry: entries[row],
        },
        shape: shape_at(events, entries, row),
    }
}
