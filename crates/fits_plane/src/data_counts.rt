use fits_stream::Count;

/// How many blocks of a data unit were scanned, and how many of its pixels read.
#[derive(Drop)]
pub struct DataCounts {
    pub scans: Count,
    pub reads: Count,
}
