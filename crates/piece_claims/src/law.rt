//! The laws that join a board, which sees the journal as flags, with the work of the journal itself.
ghost use Rattle.std.specs.Prelude.{◌≡◌, ℕ, ◌<◌, Bool, Some, List, [], ◌∷◌, ◌++◌, length, filter, slice_set, false};
ghost use Rattle.std.specs.List.{AllByRecursion};
ghost use Rattle.cal_model.specs.declared.piece.Piece.{Piece};
ghost use Rattle.cal_model.specs.History.Claims.{Work, next_claim};
ghost use Rattle.cal_model.specs.History.Journal.{Entry};
ghost use Rattle.cal_model.specs.History.RightPieces.{IsRight, live_pieces};
ghost use Rattle.cal_model.specs.Pieces.PieceLists.{is_other_piece, rows_at};
ghost use Rattle.piece_claims.specs.Boards.{Board, Shows, next_of, pieces_with};
ghost use Rattle.piece_claims.specs.Entries.{HasEntry, pieces_of_live, work_with};
ghost use Rattle.piece_claims.specs.Kept.{AreOfLive};

/// Where a board shows what a server's claims depend on, both have the same next claim.
pub fn next_is_of_work()
    ensures { (board : Board) (work : Work) → Shows board work → next_claim work ≡ next_of board }
{}

/// A board whose flags follow one more entry shows the work with that entry.
pub fn entry_is_shown()
    ensures { (old new : Board) (work : Work) (entry : Entry) → Shows old work → HasEntry old new work.journal entry → Shows new (work_with entry new work) }
{}

/// The pieces that stay after a request are those of the entries that are flagged: all of them
/// before it, without those of each object that ended, whatever entry more there is.
pub fn pieces_follow()
    ensures shown { (board : Board) (work : Work) (pieces : List Piece) → Shows board work → live_pieces work.journal pieces ≡ pieces_of_live board.live pieces }
    ensures all { (live : List Bool) (pieces : List Piece) → AreOfLive live pieces → pieces_of_live live pieces ≡ pieces }
    ensures ended { (live : List Bool) (origin : ℕ) (pieces : List Piece) → filter (is_other_piece origin) (pieces_of_live live pieces) ≡ pieces_of_live (slice_set live origin false) pieces }
    ensures added { (live : List Bool) (made : Bool) (pieces : List Piece) → AllByRecursion (λ (piece : Piece). piece.origin < length live) pieces → pieces_of_live (live ++ made ∷ []) pieces ≡ pieces_of_live live pieces }
    ensures known { (live : List Bool) (pieces : List Piece) → AreOfLive live pieces → AllByRecursion (λ (piece : Piece). piece.origin < length live) pieces }
{}

/// Where a right piece is published among right ones, all are right after it, and its rows are found:
/// a piece that the pair had already has the same.
pub fn publication_is_right()
    ensures right { (journal : List Entry) (piece : Piece) (pieces : List Piece) → IsRight journal piece → AllByRecursion (IsRight journal) pieces → AllByRecursion (IsRight journal) (pieces_with piece pieces) }
    ensures found { (journal : List Entry) (piece : Piece) (pieces : List Piece) → IsRight journal piece → AllByRecursion (IsRight journal) pieces → rows_at piece.origin piece.window (pieces_with piece pieces) ≡ Some piece.rows }
{}
