//! The format of an input that is not a stream, by its first bytes.

/// A format that an input may have instead of a stream's, or around it.
#[derive(Clone, Copy, Debug, PartialEq, Eq)]
pub enum Format {
    /// An Arrow file (Columnar Format, "IPC File Format").
    ArrowFile,
    /// A Feather file of version 1.
    Feather,
    /// An Apache Parquet file.
    Parquet,
    /// An Apache ORC file.
    Orc,
    /// Bytes that gzip compressed (RFC 1952).
    Gzip,
    /// Bytes that Zstandard compressed (RFC 8878).
    Zstandard,
    /// Bytes in an LZ4 frame.
    Lz4,
    /// A ZIP archive.
    Zip,
    /// The head of an HTTP response.
    Http,
    /// An HTML page or an XML text.
    Markup,
    /// A JSON text.
    Json,
}

/// The formats that have a signature, each with its signature.
const SIGNATURES: [(&[u8], Format); 12] = [
    (b"ARROW1", Format::ArrowFile),
    (b"FEA1", Format::Feather),
    (b"PAR1", Format::Parquet),
    (b"ORC", Format::Orc),
    (b"\x1f\x8b", Format::Gzip),
    (b"\x28\xb5\x2f\xfd", Format::Zstandard),
    (b"\x04\x22\x4d\x18", Format::Lz4),
    (b"PK\x03\x04", Format::Zip),
    (b"HTTP/", Format::Http),
    (b"<", Format::Markup),
    (b"{", Format::Json),
    (b"[", Format::Json),
];

impl Format {
    /// The format with whose signature the bytes begin, if there is one.
    pub fn of(bytes: &[u8]) -> Option<Format> {
        for (signature, format) in SIGNATURES {
            if bytes.starts_with(signature) {
                return Some(format);
            }
        }
        None
    }

    /// The format of the input, and what can be done.
    pub fn advice(self) -> &'static str {
        match self {
            Format::ArrowFile => {
                "This is an Arrow file: its stream begins at byte 8, and ends before the footer."
            }
            Format::Feather => "This is a Feather file of version 1, and no Arrow stream.",
            Format::Parquet => "This is a Parquet file, and no Arrow stream.",
            Format::Orc => "This is an ORC file, and no Arrow stream.",
            Format::Gzip => "These bytes are compressed by gzip: decompress them first.",
            Format::Zstandard => "These bytes are compressed by Zstandard: decompress them first.",
            Format::Lz4 => "These bytes are an LZ4 frame: decompress them first.",
            Format::Zip => "This is a ZIP archive: unpack it first.",
            Format::Http => "This is the head of an HTTP response: the stream is its body.",
            Format::Markup => "This is a page of HTML or XML, as servers send with an error.",
            Format::Json => "This is a text of JSON, and no Arrow stream.",
        }
    }
}
