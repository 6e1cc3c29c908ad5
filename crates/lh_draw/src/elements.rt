//! What stands around the bars of a drawing, each element as the SVG text that a type displays.
ghost use Rattle.std.specs.Prelude.{Some};
ghost use Rattle.lh_draw.specs.DrawingTexts.{canvas_text, caption_text, label_text, legend_text, mark_text};
ghost use Rattle.lh_draw.specs.DrawingTexts.{numbers_text, plot_text, title_text};

use std::fmt;

/// What is drawn on. Its title and its description, the elements `title` and `desc`, name it to readers who don't see
/// it. What grows downwards with what it shows may be of any height.
#[derive(Clone, Copy)]
pub struct Canvas {
    pub width: u32,
    pub height: u128,
}

impl fmt::Display for Canvas {
    ghost output = { λ canvas. Some (canvas_text canvas) };

    #[tactic(auto, unfolding(crate::specs::DrawingTexts::canvas_text))]
    fn fmt<W: fmt::Write>(&self, f: &mut fmt::Formatter<W>) -> fmt::Result {
        let Canvas { width, height } = *self;
        write!(
            f,
            "<svg xmlns='http://www.w3.org/2000/svg' width='{width}' height='{height}' viewBox='0 0 {width} {height}' role='img' aria-labelledby='title desc' font-family='sans-serif' font-size='12' fill='#333333'>\n"
        )
    }
}

/// The numbers of a file, as the drawing's title and as a line of text on the white ground.
#[derive(Clone, Copy)]
pub struct Title {
    pub buckets: u32,
    pub level: u8,
    pub pointer: u32,
    pub records: u128,
    pub pages: u128,
    pub longest: usize,
}

impl fmt::Display for Title {
    ghost output = { λ title. Some (title_text title) };

    #[tactic(auto, unfolding(crate::specs::DrawingTexts::title_text))]
    fn fmt<W: fmt::Write>(&self, f: &mut fmt::Formatter<W>) -> fmt::Result {
        let numbers = Numbers { title: *self };
        write!(
            f,
            "<title id='title'>Linear hash file: {numbers}</title>\n<rect width='100%' height='100%' fill='#ffffff'/>\n<text x='24' y='24'>{numbers}</text>\n"
        )
    }
}

/// What a title says.
#[derive(Clone, Copy)]
struct Numbers {
    title: Title,
}

impl fmt::Display for Numbers {
    ghost output = { λ numbers. Some (numbers_text numbers.title) };

    #[tactic(auto, unfolding(crate::specs::DrawingTexts::numbers_text))]
    fn fmt<W: fmt::Write>(&self, f: &mut fmt::Formatter<W>) -> fmt::Result {
        let Title {
            buckets,
            level,
            pointer,
            records,
            pages,
            longest,
        } = self.title;
        write!(
            f,
            "buckets {buckets}, level {level}, pointer {pointer}, records {records}, pages {pages}, longest chain {longest}"
        )
    }
}

/// What the two colours stand for, and how many buckets a column shows. `next` is the level above the file's, where
/// there are buckets of it.
#[derive(Clone, Copy)]
pub struct Legend {
    pub level: u8,
    pub next: Option<u8>,
    pub group: u32,
}

impl fmt::Display for Legend {
    ghost output = { λ legend. Some (legend_text legend) };

    #[tactic(auto, unfolding(crate::specs::DrawingTexts::legend_text))]
    fn fmt<W: fmt::Write>(&self, f: &mut fmt::Formatter<W>) -> fmt::Result {
        let Legend { level, next, group } = *self;
        match next {
            Some(next) => write!(
                f,
                "<path fill='#0072b2' d='M24 50v-12h12v12z'/><text x='42' y='48'>level {level}</text><path fill='#e69f00' d='M104 50v-12h12v12z'/><text x='122' y='48'>level {next}</text><text x='184' y='48'>buckets in a column: {group}</text>\n"
            ),
            None => write!(
                f,
                "<path fill='#0072b2' d='M24 50v-12h12v12z'/><text x='42' y='48'>level {level}</text><text x='104' y='48'>buckets in a column: {group}</text>\n"
            ),
        }
    }
}

/// What a column shows, as the drawing's description and as a line of text: the pages of one bucket, or what a group of
/// buckets has.
#[derive(Clone, Copy)]
pub struct Caption {
    pub is_detailed: bool,
}

impl fmt::Display for Caption {
    ghost output = { λ caption. Some (caption_text caption) };

    #[tactic(auto, unfolding(crate::specs::DrawingTexts::caption_text))]
    fn fmt<W: fmt::Write>(&self, f: &mut fmt::Formatter<W>) -> fmt::Result {
        if self.is_detailed {
            write!(
                f,
                "<desc id='desc'>Columns of boxes, one for each bucket, blue at the level of the file and orange one above: a box is a page, coloured as far as its slots are used. A triangle marks the bucket that splits next.</desc>\n<text x='24' y='68'>a box is a page, coloured as far as its slots are used</text>\n"
            )
        } else {
            write!(
                f,
                "<desc id='desc'>Columns, one for each group of buckets, blue at the level of the file and orange one above: a column is as high as its longest chain, and coloured as far as its buckets are used on average. A triangle marks the bucket that splits next.</desc>\n<text x='24' y='68'>a column is as high as its longest chain, 24 pages at most, and coloured as far as its buckets are used on average</text>\n"
            )
        }
    }
}

/// Where the columns stand: the origin of what follows is the floor below the first column.
#[derive(Clone, Copy)]
pub struct Plot {
    pub floor: u32,
}

impl fmt::Display for Plot {
    ghost output = { λ plot. Some (plot_text plot) };

    #[tactic(auto, unfolding(crate::specs::DrawingTexts::plot_text))]
    fn fmt<W: fmt::Write>(&self, f: &mut fmt::Formatter<W>) -> fmt::Result {
        write!(f, "<g transform='translate(24 {})'>\n", self.floor)
    }
}

/// The number of a column's first bucket, below the column.
#[derive(Clone, Copy)]
pub struct Label {
    pub centre: u32,
    pub bucket: u32,
}

impl fmt::Display for Label {
    ghost output = { λ label. Some (label_text label) };

    #[tactic(auto, unfolding(crate::specs::DrawingTexts::label_text))]
    fn fmt<W: fmt::Write>(&self, f: &mut fmt::Formatter<W>) -> fmt::Result {
        let Label { centre, bucket } = *self;
        write!(
            f,
            "<text x='{centre}' y='16' text-anchor='middle'>{bucket}</text>\n"
        )
    }
}

/// The split pointer, a triangle below the column of the bucket that splits next, and the drawing's end.
#[derive(Clone, Copy)]
pub struct Mark {
    pub centre: u32,
    pub pointer: u32,
}

impl fmt::Display for Mark {
    ghost output = { λ mark. Some (mark_text mark) };

    #[tactic(auto, unfolding(crate::specs::DrawingTexts::mark_text))]
    fn fmt<W: fmt::Write>(&self, f: &mut fmt::Formatter<W>) -> fmt::Result {
        let Mark { centre, pointer } = *self;
        write!(
            f,
            "<path d='M{centre} 20l5 9h-10z'/><text x='{centre}' y='43' text-anchor='middle'>n = {pointer}</text>\n</g>\n</svg>\n"
        )
    }
}
