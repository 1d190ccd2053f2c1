// The bytes of a new record, where it changes no other record.
pub mod weigh;
