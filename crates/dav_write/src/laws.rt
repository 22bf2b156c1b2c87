//! What is written is read back, of paths and of elements.
ghost use Rattle.cal_model.specs.Paths.TargetPathLaws.{HrefsAreReadBack, TargetsNamePaths, PathsAreReadBack};
ghost use Rattle.dav_write.specs.Readable.{WritingReads, ReadingGives, RoundTrip};

/// What a target names is a path, and the written form of a path names that path. The canonical text
/// of an element that can stand in a body is a body that spells that element again; each element that
/// a body spells can stand in one, so it is read back from its canonical text.
pub fn read_back_laws()
    ensures hrefs { HrefsAreReadBack }
    ensures targets { TargetsNamePaths }
    ensures paths { PathsAreReadBack }
    ensures written { WritingReads }
    ensures read { ReadingGives }
    ensures elements { RoundTrip }
{}
