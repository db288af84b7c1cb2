// One bucket of three columns.
ghost use Rattle.std.specs.Prelude.{◌≡◌};
ghost use Rattle.bucket.specs.Bucket.{bucket, is_zero};

#[unsafe(no_mangle)]
pub extern "C" fn tandawire_is_zero(idsum: u64, hashsum: u32, count: i64) -> bool
    ensures { result ≡ is_zero (bucket idsum hashsum count) }
{
    bucket::columns::is_zero(idsum, hashsum, count)
}
