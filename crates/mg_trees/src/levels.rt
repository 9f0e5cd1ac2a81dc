//! The pages of a tree, level by level.

ghost use Rattle.std.specs.Prelude.{◌≡◌};

use std::marker::Model;

/// The pages of a level, from the leftmost one on.
#[derive(Drop)]
pub struct Level {
    pages: Vec<u32>,
}

impl Model for Level {
    ghost use Rattle.std.specs.Prelude.{List, ℕ};

    ghost Value = { List ℕ };

    ghost view = { λ level. level.pages.items };
}

impl Level {
    /// The level of these pages. It takes no memory.
    pub fn new(pages: Vec<u32>) -> Level
        ensures { result ≡ pages.items }
    {
        Level { pages }
    }

    /// The numbers of its pages, from the leftmost one on.
    pub fn as_slice(&self) -> &[u32]
        ensures { result.now ≡ self.now }
    {
        &self.pages
    }
}

/// The levels of a tree, from the root's level down.
#[derive(Drop)]
pub struct Levels {
    levels: Vec<Level>,
}

impl Model for Levels {
    ghost use Rattle.std.specs.Prelude.{List, ℕ};

    ghost Value = { List (List ℕ) };

    ghost view = { λ levels. levels.levels.items };
}

impl Levels {
    /// The tree of these levels. It takes no memory.
    pub fn new(levels: Vec<Level>) -> Levels
        ensures { result ≡ levels.items }
    {
        Levels { levels }
    }

    /// The levels, the root's first.
    pub fn as_slice(&self) -> &[Level]
        ensures { result.now ≡ self.now }
    {
        &self.levels
    }
}
