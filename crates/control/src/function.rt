// Control functions by what they do.

// What is erased of a page or a line.
#[derive(Clone, Copy, Debug, PartialEq, Eq)]
pub enum Extent {
    // from the active position to the end
    ToEnd,
    // from the start through the active position
    FromStart,
    All,
}

// Which stops TBC clears.
#[derive(Clone, Copy, Debug, PartialEq, Eq)]
pub enum Clearing {
    // the character stop at the active column
    ColumnStop,
    // the line stop at the active line
    LineStop,
    AllColumnStops,
    AllLineStops,
    AllStops,
}

// The replies that DSR requests.
#[derive(Clone, Copy, Debug, PartialEq, Eq)]
pub enum Report {
    Status,
    Position,
}

#[derive(Clone, Copy, Debug, PartialEq, Eq)]
pub enum Control {
    // One that has no effect. With an Option in its place each row of the tables that select would be wrapped.
    Nothing,
    Character(u8),
    Reset,
    Up(u16),
    Down(u16),
    Right(u16),
    Left(u16),
    ToColumn(u16),
    ToLine(u16),
    GoTo(u16, u16),
    ToFirstColumn,
    EraseInPage(Extent),
    EraseInLine(Extent),
    EraseCharacters(u16),
    InsertCharacters(u16),
    DeleteCharacters(u16),
    InsertLines(u16),
    DeleteLines(u16),
    ScrollUp(u16),
    ScrollDown(u16),
    ScrollLeft(u16),
    ScrollRight(u16),
    Tab(u16),
    BackTab(u16),
    LineTab(u16),
    SetColumnStop,
    SetLineStop,
    Clear(Clearing),
    // the next three take the values of the sequence that selects them
    SetModes,
    ResetModes,
    SelectRendition,
    Request(Report),
    LineFeed,
    ReverseLineFeed,
    NextLine,
}
