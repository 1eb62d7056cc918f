//! What a parser keeps of the lists and maps around a place.

/// What a parser looks for at its place.
#[derive(Clone, Copy, Debug)]
pub enum Mode {
    /// The stream's start.
    Begin,
    /// A document, or the stream's end.
    Document,
    /// The document's node, behind `---` or not.
    Root(bool),
    /// An entry of a block list, behind a dash at this column.
    Item(usize),
    /// A key of a block map.
    Key,
    /// A value of a block map whose keys stand at this column.
    Value(usize),
    /// An entry or the end of a flow list or map, behind its opening bracket.
    Open,
    /// What stands behind a key of a flow map.
    AfterKey {
        /// Whether the key was quoted.
        is_quoted: bool,
        /// Whether the key is a plain scalar that would go on in the next line.
        continues: bool,
    },
    /// What stands behind a node.
    Done {
        /// Whether the node is a plain scalar that would go on in the next line.
        continues: bool,
    },
    /// Nothing: more stands on a line than may.
    Trailing,
    /// The stream's end, behind the document.
    Last,
    /// Nothing: the stream has ended.
    Ended,
}

/// An open list or map.
#[derive(Clone, Copy, Debug)]
pub enum Frame {
    /// A block list, whose dashes stand at this column.
    InList(usize),
    /// A block map, whose keys stand at this column.
    InMap(usize),
    /// A flow list, within another flow or not.
    InSeq(bool),
    /// A flow map, within another flow or not.
    InPairs(bool),
}

/// What an event changes of the open lists and maps.
#[derive(Clone, Copy, Debug)]
pub enum Change {
    /// Nothing.
    Keep,
    /// One more is open, the innermost.
    Push(Frame),
    /// The innermost is closed.
    Pop,
}
