//! What a template is to the reader of an incremental feed.

ghost use Rattle.std.specs.Prelude.{◌≡◌};
ghost use Rattle.mdp_templates.specs.Incremental.{template_of};

/// The part that a template plays on the incremental feeds.
#[derive(Clone, Copy, Debug, PartialEq, Eq)]
pub enum Template {
    /// Incremental book refresh: its entries and its match event indicator are read.
    Book,
    /// Its match event indicator alone is read.
    Carrier,
    /// A channel reset, which is refused.
    ChannelReset,
    /// Stepped over by its size, as a heartbeat.
    Other,
}

impl Template {
    /// Returns the part of the template of this id.
    pub fn of(id: u16) -> Template
        ensures { result ≡ template_of id }
    {
        match id {
            46 => Template::Book,
            4 => Template::ChannelReset,
            37 | 47..=51 => Template::Carrier,
            _ => Template::Other,
        }
    }
}
