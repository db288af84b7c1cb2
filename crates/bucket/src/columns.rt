// One bucket of three columns: tested for zero.
ghost use Rattle.std.specs.Prelude.{◌≡◌};
ghost use Rattle.bucket.specs.Bucket.{bucket, is_zero};

// Whether a bucket is zero in all columns. A count of zero alone does not make it so.
pub fn is_zero(idsum: u64, hashsum: u32, count: i64) -> bool
    ensures { result ≡ is_zero (bucket idsum hashsum count) }
{
    (idsum == 0) & (hashsum == 0) & (count == 0)
}
