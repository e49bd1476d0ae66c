use sub_files::Pattern;

/// What a channel of the logger writes, and where.
#[derive(Drop)]
pub struct ChannelSpec {
    /// The channel's number, below 16.
    pub number: u32,
    /// The names of its files.
    pub pattern: Pattern,
    /// The number of the buffer that it reads.
    pub buffer: u32,
    /// The id of the events that it asks for; 65,535 for those of any.
    pub id: u16,
    /// The mask of the triggers that it asks for; 65,535 for any.
    pub mask: u16,
    /// The most bytes of a file of more than one event, its end record apart; 0 for any number.
    pub sub_bytes: u32,
}
