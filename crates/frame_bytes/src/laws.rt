//! What holds of frames as bytes and of all streams of them, as contracts of functions that do nothing.
ghost use Rattle.std.specs.Prelude.{◌≡◌, ℕ, ◌++◌, [], List};
ghost use Rattle.std.specs.List.{flat_map};
ghost use Rattle.rpc_frame.specs.declared.frame.Frame.{Frame};
ghost use Rattle.frame_bytes.specs.Frames.{frame_bytes};
ghost use Rattle.frame_bytes.specs.Ranges.{IsFrame};
ghost use Rattle.frame_bytes.specs.Streams.{AllFed, Left, Rest, Splits};

/// A frame has one spelling, bytes spell at most one frame, and no frame's spelling begins another's.
pub fn no_spelling_begins_another()
    ensures { (f g : Frame) (x y : List ℕ) → IsFrame f → IsFrame g
        → frame_bytes f ++ x ≡ frame_bytes g ++ y → (f ≡ g) × (x ≡ y) }
{}

/// A stream begins with these frames and no others, and ends in one way.
pub fn a_stream_has_one_reading()
    ensures { (stream : List ℕ) (fs gs : List Frame) (l m : Left)
        → Splits stream fs l → Splits stream gs m → (fs ≡ gs) × (l ≡ m) }
{}

/// What a joiner has given of a stream so far, and where it stands, are the stream's frames and its end, however the
/// stream was cut into pieces.
pub fn pieces_do_not_matter()
    ensures { (pieces : List (List ℕ)) (frames : List Frame) (left : Left)
        → AllFed (Rest []) pieces frames left → Splits (flat_map (λ piece. piece) pieces) frames left }
{}
