//! Tests of `lhash`, all by its public calls. They stand apart so that they are proved over its
//! statements, without proving it again, and while its wrong bodies are tried. Those of images and those of threads and
//! failing devices stand in `lhash_image_tests` and `lhash_drive_tests`, so that the three are proved side by side.
#![tactic(auto)]

#[cfg(test)]
mod tests;
