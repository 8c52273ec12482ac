//! What names stand for, what bodies are, and how names are used.

/// What a declared name stands for.
#[derive(Clone, Copy)]
pub enum Entity {
    /// The channel with this number, and the number of its fields.
    Channel(u32, u32),
    /// The constant with this number.
    Constant(u32),
    /// The definition with this number, and the number of its parameters.
    Definition(u32, u32),
    /// The nametype or datatype that is the definition with this number.
    Set(u32),
}

/// What a name stands for at a place.
#[derive(Clone, Copy)]
pub enum Sense {
    /// A value that is put in for it.
    Bound,
    /// What it is declared as.
    Declared(Entity),
    /// Nothing.
    Unknown,
}

/// What a body is.
#[derive(Clone, Copy)]
pub enum Class {
    /// A value.
    Data,
    /// A process.
    Process,
    /// Neither, since it ends at a name that has no meaning.
    Unknown,
}

/// What a definition is.
#[derive(Clone, Copy)]
pub struct Kind {
    /// What its body is.
    pub class: Class,
    /// Whether it is a network definition.
    pub network: bool,
}

/// Where a body ends.
#[derive(Clone, Copy)]
pub enum End {
    /// At a form of data.
    Data,
    /// At a form of a process.
    Process,
    /// At a parallel.
    Parallel,
    /// At the use of the definition with this number.
    Use(u32),
    /// At a name that has no meaning.
    Nothing,
}

/// What is needed at a place.
#[derive(Clone, Copy)]
pub enum Need {
    /// Data.
    Data,
    /// A process.
    Process,
    /// Either fits.
    Either,
}

/// A place of a tree.
#[derive(Clone, Copy)]
pub struct Place {
    /// What is needed there.
    pub need: Need,
    /// Whether it is a network position.
    pub network: bool,
    /// How many trees it stands in, itself among them.
    pub level: u32,
}

/// How a name is used.
#[derive(Clone, Copy)]
pub enum Use {
    /// By itself.
    Alone(Place),
    /// With so many arguments.
    Called(usize, Place),
    /// In an event, with so many fields after it.
    Dotted(usize),
    /// At the head of a prefix, with so many fields after it.
    Heads(usize),
    /// As a part of `{| |}` or a side of a renaming, with so many fields after it.
    Begins(usize),
    /// As the old side of a renaming, with so many fields after it; the new side, and so many fields after that.
    Renamed(usize, Sense, usize),
    /// As the process of an annotation.
    Annotated,
    /// As a set of an annotation of this process.
    Annotates(Sense),
}
