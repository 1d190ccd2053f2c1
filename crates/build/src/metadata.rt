// The metadata section: records that yards share, and texts that records share.
pub mod begins;
pub mod kept;
pub mod remotes;
pub mod words;
