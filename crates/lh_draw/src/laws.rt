//! What a drawing means, by the definitions of `specs/Drawing.antt`. Each law is the contract of a function that does
//! nothing.
ghost use Rattle.lh_draw.specs.Meaning.{ApartLaw, BoxLaw, ColourLaw, ColumnLaw, LegendLaw};

use lh_page::laws::pages_are_pieces;

/// Of a file of up to 128 buckets, with no chain of more than 24 pages,
/// a drawing has as many boxes as the file has pages.
pub fn pages_are_boxes()
    ensures { BoxLaw }
{}

/// A box is coloured as far as its page is used, in the colour of its bucket's level.
pub fn boxes_are_coloured_as_used()
    ensures { ColourLaw }
{
    pages_are_pieces();
}

/// No box hides another one.
pub fn boxes_are_apart()
    ensures { ApartLaw }
{}

/// Each bucket stands in one column, however many there are.
pub fn buckets_have_columns()
    ensures { ColumnLaw }
{}

/// The legend names the level of each bucket; [`legend_of`](crate::legend_of) says that it names none above 16.
pub fn levels_are_named()
    ensures { LegendLaw }
{}
