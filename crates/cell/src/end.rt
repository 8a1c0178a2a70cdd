// The end of a cell by its key.
ghost use Rattle.std.specs.Prelude.{◌≡◌};
ghost use Rattle.cell.specs.EndKeys.{Numbered, end_key};

// The key of a cell's end; above every key where there is none.
pub fn end_key(end: Option<f64>) -> u64
    requires { Numbered end }
    ensures { result ≡ end_key end }
{
    match end {
        Some(e) => gf::key(e),
        None => u64::MAX,
    }
}
