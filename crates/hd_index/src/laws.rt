//! What holds of every index that shows a scene.

ghost use Rattle.hd_index.specs.Laws.{UsersAreUses, BuffersAreKept};

/// Each buffer of the scene's rows is kept, and its entry has a user for each place of a row that has the buffer.
pub fn rows_share_buffers()
    ensures users { UsersAreUses }
    ensures kept { BuffersAreKept }
{}
