//! Laws of the definitions that contracts cite. The function does nothing: its clause is the law.
ghost use Rattle.slice_cert.specs.CertLines.{BytesAreOneLineAtMost};

/// Bytes are read as one line at most.
pub fn bytes_are_one_line_at_most()
    ensures { BytesAreOneLineAtMost }
{}
