//! What holds of the definitions alone. Each function does nothing, and its contract is the law.

ghost use Rattle.std.specs.Prelude.{◌≡◌, ◌<◌, ◌≤◌, ◌⊎◌};
ghost use Rattle.world.specs.{ℕ, false, List, Option, Some, None, IsSome, option_map, Rect, AreRectangle, Covers, IsFrameOf, frame_of, frame_of_two, Panels, cursor_of_topmost, found_from_top};
ghost use Rattle.world.specs.{is_in_panel, SharesPart, AreSoundPanels, AreSoundWindows, IsSound, World, picture, call_frame, effect_of, is_update_panels, refusal, world_after, affects_line};
ghost use Rattle.world.specs.{affects_place, change_shows_at, edit_shows_at, frame_shows_at, move_shows_at, order_shows_at, Writes, WritesAt, leads_elsewhere, windows_after_call, after_making};
ghost use Rattle.world.specs.{has_no_parent, making_change, making_refusal, stacking_order, stacking_refusal, DifferInSettings, Edit, after_edit, edit_drawing, edit_frame, edit_window};
ghost use Rattle.world.specs.{fill_edit, put_edit, world_edited};
ghost use Rattle.world.specs.{panels_after, shifted_to, windows_after, with_unmarked, Glyph, shown_at, Drawing, GridPlace, HasPlace, IsWrite, Window, WindowMap, Windows, cell_at, cell_in_grid};
ghost use Rattle.world.specs.{derives, onward, over, own, put, put_windows};
ghost use Rattle.world.specs.declared.call.Call.{Call};
ghost use Rattle.world.specs.declared.written_calls.Making.{Making};
ghost use Rattle.world.specs.declared.written_calls.Refresh.{Refresh};
ghost use Rattle.world.specs.declared.written_calls.Stacking.{Stacking};

/// The places of a window lead to a rectangle of one grid: where one leads is where the first one leads, moved.
pub fn own_is_moved()
    ensures { (window : WindowMap) (w y x : ℕ) → own window w y x ≡ option_map (onward y x) (own window w 0 0) }
{}

/// The places at which one window shows cells of a rectangle of another are a rectangle, or there are none.
pub fn shared_rectangle()
    ensures { (window : WindowMap) (w : ℕ) (r : Rect) (u : ℕ) → (o : Option Rect) × AreRectangle (SharesPart window w r u) o }
{}

/// A second write through a window is one write of its drawing laid over the first one's.
pub fn joined_writes()
    ensures { (window : WindowMap) (w : ℕ) (f g : Drawing) → put_windows (put_windows window w f) w g ≡ put_windows window w (over g f) }
{}

/// What one write does, by where places lead.
pub fn writes_are_shared()
    ensures { (windows : Windows) (w : ℕ) (f : Drawing) → AreSoundWindows windows → IsWrite windows.window (put windows w f).window w f }
{}

/// Whatever windows there are, sound or not, a write leaves where each place leads.
pub fn own_after_write()
    ensures { (window : WindowMap) (w : ℕ) (f : Drawing) (u y x : ℕ) → own (put_windows window w f) u y x ≡ own window u y x }
{}

/// A cell that was written through one of them is shown by each window at each place that leads where it was written.
pub fn written_cell()
    ensures { (window : WindowMap) (w : ℕ) (a : Window) (p : GridPlace) (f : Drawing) (y x : ℕ) (glyph : Glyph) (u v z : ℕ)
        → window w ≡ Some a → own window w 0 0 ≡ Some p → y < a.lines → x < a.columns → f y x ≡ Some glyph
        → own window u v z ≡ own window w y x → cell_at (put_windows window w f) u v z ≡ glyph }
{}

/// A place that leads to none of the places that were written shows the cell that it showed.
pub fn kept_cell()
    ensures { (window : WindowMap) (w : ℕ) (f : Drawing) (u v z : ℕ)
        → ((y x : ℕ) → HasPlace window w y x → IsSome (f y x) → own window w y x ≡ own window u v z → ⊥)
        → cell_at (put_windows window w f) u v z ≡ cell_at window u v z }
{}

/// What an edit leaves is one write of its drawing, but for settings: a text too, whose drawing has those of its
/// characters, each over those before it.
pub fn edits_are_writes()
    ensures { (windows : Windows) (edit : Edit)
        → DifferInSettings (after_edit windows edit).window (put_windows windows.window (edit_window edit) (edit_drawing windows edit)) }
{}

/// Of each call that isn't refused. Each place of a window that leads where the call wrote shows what it wrote there.
/// Each other place shows what was there, in the grid to which it leads. And where it leads changes in those windows
/// alone that the call made or deleted, or moved in their parent, and in those that derive from these.
pub fn cells_after_calls()
    ensures written { (world : World) (call : Call) (w y x : ℕ) (glyph : Glyph) (u v z : ℕ) → IsSound world
        → WritesAt world.windows (effect_of world call) w y x glyph
        → own (windows_after_call world call) u v z ≡ own world.windows.window w y x
        → cell_at (windows_after_call world call) u v z ≡ glyph }
    ensures kept { (world : World) (call : Call) (u v z : ℕ) → IsSound world → refusal world call ≡ None
        → ((w y x : ℕ) (glyph : Glyph) → WritesAt world.windows (effect_of world call) w y x glyph
        → own world.windows.window w y x ≡ own (windows_after_call world call) u v z → ⊥)
        → cell_at (windows_after_call world call) u v z ≡ cell_in_grid world.windows.window (own (windows_after_call world call) u v z) }
    ensures leads { (world : World) (call : Call) (u v z : ℕ) → IsSound world → refusal world call ≡ None
        → leads_elsewhere world.windows (effect_of world call) u ≡ false
        → own (windows_after_call world call) u v z ≡ own world.windows.window u v z }
{}

/// The frame of a call is the smallest rectangle that holds each place that it writes; there is none where it writes
/// nothing.
pub fn frames_of_calls()
    ensures { (world : World) (call : Call) → IsFrameOf (Writes world.windows (effect_of world call)) (call_frame world call) }
{}

/// A write through a window leaves the picture as it is at each place of the screen where its frame isn't shown; so
/// does mvderwin at each place that it doesn't affect; and every call that isn't refused on each line that it doesn't
/// affect.
pub fn kept_picture()
    ensures written { (windows : Windows) (panels : Panels) (w : ℕ) (a : Window) (f : Drawing) (y x : ℕ) → AreSoundWindows windows
        → windows.window w ≡ Some a → y < windows.lines → x < windows.columns → frame_shows_at windows.window panels w (frame_of a f) y x ≡ false
        → found_from_top (put_windows windows.window w f) panels y x ≡ found_from_top windows.window panels y x }
    ensures moved { (windows : Windows) (panels : Panels) (w v z y x : ℕ) → AreSoundWindows windows → has_no_parent windows.window w ≡ false
        → move_shows_at windows.window panels w y x ≡ false
        → found_from_top (shifted_to windows w (v, z)).window panels y x ≡ found_from_top windows.window panels y x }
    ensures called { (world : World) (call : Call) (y x : ℕ) → IsSound world → refusal world call ≡ None
        → y < world.windows.lines → x < world.windows.columns → affects_line world call y ≡ false
        → picture (world_after world call) y x ≡ picture world y x }
{}

/// At each place of the screen that a call doesn't affect the picture stays as it is; and so does the virtual screen,
/// but for update_panels.
pub fn kept_places()
    ensures picture { (world : World) (call : Call) (y x : ℕ) → IsSound world → refusal world call ≡ None
        → y < world.windows.lines → x < world.windows.columns → affects_place world call y x ≡ false
        → picture (world_after world call) y x ≡ picture world y x }
    ensures virtual_screen { (world : World) (call : Call) (y x : ℕ)
        → y < world.windows.lines → x < world.windows.columns → is_update_panels call ≡ false → affects_place world call y x ≡ false
        → shown_at (world_after world call).virtual.picture (y, x) ≡ shown_at world.virtual.picture (y, x) }
{}

/// An edit changes the picture at most where its frame is shown.
pub fn kept_by_edits()
    ensures { (windows : Windows) (panels : Panels) (edit : Edit) (y x : ℕ) → AreSoundWindows windows → y < windows.lines → x < windows.columns
        → edit_shows_at windows panels edit y x ≡ false
        → found_from_top (after_edit windows edit).window panels y x ≡ found_from_top windows.window panels y x }
{}

/// A call that makes, deletes or moves a window changes the picture at most where a visible panel's window shows other
/// cells then.
pub fn kept_by_making()
    ensures { (windows : Windows) (panels : Panels) (making : Making) (y x : ℕ) → AreSoundWindows windows → AreSoundPanels windows.window panels
        → y < windows.lines → x < windows.columns
        → making_refusal windows (is_in_panel panels) making ≡ None → change_shows_at windows panels (making_change windows making) y x ≡ false
        → found_from_top (after_making windows making).window panels y x ≡ found_from_top windows.window panels y x }
{}

/// A call on a panel changes the picture at most where the panel is seen before or after.
pub fn kept_by_stacking()
    ensures { (windows : Windows) (panels : Panels) (stacking : Stacking) (y x : ℕ) → AreSoundWindows windows → AreSoundPanels windows.window panels
        → y < windows.lines → x < windows.columns
        → stacking_refusal windows panels stacking ≡ None → order_shows_at windows panels (stacking_order panels stacking) y x ≡ false
        → found_from_top (windows_after windows panels (stacking_order panels stacking)).window (panels_after panels (stacking_order panels stacking)) y x
        ≡ found_from_top windows.window panels y x }
{}

/// Refreshing changes the picture nowhere: it changes touched columns, clear flags, the virtual screen and colours.
pub fn kept_by_refresh()
    ensures { (world : World) (refresh : Refresh) (y x : ℕ)
        → found_from_top (world_after world (Call.Refresh refresh)).windows.window (world_after world (Call.Refresh refresh)).panels y x
        ≡ found_from_top world.windows.window world.panels y x }
{}

/// The frame of an edit lies in its window.
pub fn frames_are_inside()
    ensures { (windows : Windows) (edit : Edit) (r : Rect) → edit_frame windows edit ≡ Some r
        → (r.top ≤ r.bottom) × (r.left ≤ r.right) × HasPlace windows.window (edit_window edit) r.bottom r.right }
{}

/// An edit leaves windows where they are, with the cells that they share: a frame is shown after it where it was
/// before. A shift leaves which windows derive from which: it affects the same after it as before.
pub fn shapes_are_kept()
    ensures edited { (windows : Windows) (panels : Panels) (edit : Edit) (w : ℕ) (frame : Option Rect) (y x : ℕ)
        → frame_shows_at (after_edit windows edit).window panels w frame y x ≡ frame_shows_at windows.window panels w frame y x }
    ensures there { (windows : Windows) (edit : Edit) (w y x : ℕ)
        → HasPlace windows.window w y x → HasPlace (after_edit windows edit).window w y x }
    ensures shifted { (windows : Windows) (panels : Panels) (w v z y x : ℕ)
        → move_shows_at (shifted_to windows w (v, z)).window panels w y x ≡ move_shows_at windows.window panels w y x }
{}

/// Where a derived window is moved in its parent, each window that neither is it nor derives from it shows the cells
/// that it showed.
pub fn kept_by_mvderwin()
    ensures { (windows : Windows) (w y x u v z : ℕ) → (u ≡ w → ⊥) → derives windows.window w u ≡ false
        → cell_at (shifted_to windows w (y, x)).window u v z ≡ cell_at windows.window u v z }
{}

/// The rectangle of a drawing holds each place of the window that the drawing covers, and each of its sides has such a
/// place; there is none where it covers no place.
pub fn frame_is_smallest()
    ensures { (a : Window) (f : Drawing) → IsFrameOf (Covers f a.columns a.lines) (frame_of a f) }
{}

/// The rectangle of two drawings is the smallest that holds what either covers.
pub fn joined_frames()
    ensures { (a : Window) (f g : Drawing)
        → IsFrameOf (λ y x. Covers f a.columns a.lines y x ⊎ Covers g a.columns a.lines y x) (frame_of_two (frame_of a f) (frame_of a g)) }
{}

/// Untouching windows and clearing their clear flags changes neither what a search from the top finds nor the topmost's
/// cursor.
pub fn unmarked_picture()
    ensures found { (window : WindowMap) (ws : List ℕ) (panels : Panels) (y x : ℕ)
        → found_from_top (with_unmarked window ws) panels y x ≡ found_from_top window panels y x }
    ensures cursor { (window : WindowMap) (ws : List ℕ) (panels : Panels)
        → cursor_of_topmost (with_unmarked window ws) panels ≡ cursor_of_topmost window panels }
{}

/// Each call that isn't refused leaves a sound world sound, and so do cells that are given, whatever they are.
pub fn worlds_stay_sound()
    ensures called { (world : World) (call : Call) → IsSound world → refusal world call ≡ None → IsSound (world_after world call) }
    ensures filled { (world : World) (w : ℕ) (r : Rect) (number : ℕ) → IsSound world → IsSound (world_edited world (fill_edit w r number)) }
    ensures put { (world : World) (w y x : ℕ) (numbers : List ℕ) → IsSound world → IsSound (world_edited world (put_edit w y x numbers)) }
{}
