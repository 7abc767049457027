//! The fields of tables by their numbers, in a module for each table, under their names in
//! `Message.fbs` and `Schema.fbs`. A field of a union is preceded by a field, named after it, with
//! the code of its content (FlatBuffers internals, "Unions").

/// Table `Message` (`Message.fbs`).
pub mod message {
    pub const VERSION: u16 = 0;

    pub const HEADER_TYPE: u16 = 1;

    pub const HEADER: u16 = 2;

    pub const BODY_LENGTH: u16 = 3;
}

/// Table `Schema` (`Schema.fbs`).
pub mod schema {
    pub const ENDIANNESS: u16 = 0;

    pub const FIELDS: u16 = 1;

    pub const CUSTOM_METADATA: u16 = 2;
}

/// Table `Field` (`Schema.fbs`).
pub mod field {
    pub const NAME: u16 = 0;

    pub const NULLABLE: u16 = 1;

    pub const TYPE_TYPE: u16 = 2;

    pub const TYPE: u16 = 3;

    pub const DICTIONARY: u16 = 4;

    pub const CHILDREN: u16 = 5;

    pub const CUSTOM_METADATA: u16 = 6;
}

/// Table `DictionaryEncoding` (`Schema.fbs`).
pub mod dictionary_encoding {
    pub const ID: u16 = 0;

    pub const INDEX_TYPE: u16 = 1;

    pub const IS_ORDERED: u16 = 2;

    pub const DICTIONARY_KIND: u16 = 3;
}

/// Table `RecordBatch` (`Message.fbs`).
pub mod record_batch {
    pub const LENGTH: u16 = 0;

    pub const NODES: u16 = 1;

    pub const BUFFERS: u16 = 2;

    pub const COMPRESSION: u16 = 3;
}

/// Table `DictionaryBatch` (`Message.fbs`).
pub mod dictionary_batch {
    pub const ID: u16 = 0;

    pub const DATA: u16 = 1;

    pub const IS_DELTA: u16 = 2;
}

/// Table `KeyValue` (`Schema.fbs`).
pub mod key_value {
    pub const KEY: u16 = 0;

    pub const VALUE: u16 = 1;
}
