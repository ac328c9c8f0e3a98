//! Laws on written texts.

ghost use Rattle.lf_laws_roundtrip.specs.Exports.{ExportsLoadAgain, LoadedIsExportable};
ghost use Rattle.lf_laws_roundtrip.specs.LoadedTeams.{LoadedTeamsReadBack, OwnCellsAreTeamCells};
ghost use Rattle.lf_laws_roundtrip.specs.Moved.{AcceptedElsewhere, FrameStays, LoadedElsewhere, PositionsDoNotMatter};
ghost use Rattle.lf_laws_roundtrip.specs.ReadDocuments.{ReadIsSpelled};
ghost use Rattle.lf_laws_roundtrip.specs.TeamDocument.{TeamTextReadsBack};

/// The DEF text of a team reads back. Its document has:
///
/// - the header
/// - the team's fence as the only region
/// - the group that binds the team's cells to the fence by their names
/// - the cells at their working places, in loading order
///
/// It has no rows and no blockages.
///
/// A text must be able to spell the header, the fence and the cells. There are at most 4,000,000
/// cells. A group's pattern cannot be `+`, so if the team has a fence, no cell of the team may have
/// that name.
pub fn team_text_reads_back()
    ensures { TeamTextReadsBack }
{}

/// A design may be loaded again with its movable components elsewhere. A document is accepted if it
/// differs from an accepted one only in their placements, and in the positions of components in the
/// text. Its design has the same frame. The cells differ only in their places, which are those of
/// the document.
pub fn moved_designs_load_alike()
    ensures positions { PositionsDoNotMatter }
    ensures accepted { AcceptedElsewhere }
    ensures frame { FrameStays }
    ensures loaded { LoadedElsewhere }
{}

/// The document of a DEF text is spelled as in a text. Its names are words other than a semicolon.
/// Its divider and brackets are quoted texts with their marks. No group is bound to a region named
/// by a parenthesis.
pub fn read_documents_are_spelled()
    ensures { ReadIsSpelled }
{}

/// If a design is loaded from a text that was read, the DEF text of a team with its cells at any
/// places reads back.
///
/// In a team with a fence no cell may be named `+`, which is no pattern of a group. Cells with the
/// names and the macros of the team's loaded cells are cells of the team.
pub fn loaded_teams_read_back()
    ensures texts { LoadedTeamsReadBack }
    ensures cells { OwnCellsAreTeamCells }
{}

/// The cells of a loaded design can be given places. Their components lie in the document in the
/// order of the cells, and are neither FIXED nor COVER.
pub fn loaded_cells_are_exportable()
    ensures { LoadedIsExportable }
{}

/// An export of a loaded design, in which each cell is given a place, loads again. The exported
/// text reads, and its document is accepted with the same library and limits. Its design has the
/// same frame and the same cells at the given places. A DEF text must be able to hold the places.
pub fn exported_designs_load_alike()
    ensures { ExportsLoadAgain }
{}
