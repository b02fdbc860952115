// The parts of a sector's image.

/// A part of a sector's image. What is zero in each image belongs to the pattern.
#[derive(Clone, Copy, Debug, PartialEq, Eq, Drop)]
pub enum Part {
    Name,
    Address,
    Key,
    Pattern,
}
