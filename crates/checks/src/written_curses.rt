//! Names that are no calls or no numbers, and what is said. Written by tools/calls from curses.table.

use crate::suggest::Advice;
use script::CopyingWord::*;
use script::MakingWord::*;
use script::QueryWord::*;
use script::RefreshWord::*;
use script::StackingWord::*;
use script::Word::*;
use script::WritingWord::*;

#[rattlefmt::skip]
pub const CURSES: [&[Advice]; 10] = [
    &[(b"acs_hline acs_vline border border_set box box_set hline hline_set vline vline_set", &[Writing(Addstr)], b"lines are drawn by + - and |"),
      (b"add_wch add_wchnstr add_wchstr addnwstr addwstr echo_wchar pecho_wchar", &[Writing(Addstr), Writing(Addch)], b"characters are those of ASCII"),
      (b"addchnstr addnstr", &[Writing(Addstr)], b"no call takes a count"),
      (b"addchstr", &[Writing(Addstr)], b""),
      (b"alloc_pair color_pair find_pair free_pair pair_number", &[Refresh(InitPair), Writing(ColorSet)], b"a pair is its number"),
      (b"assume_default_colors use_default_colors", &[Refresh(InitPair)], b"pairs have the terminal's colours until they are set"),
      (b"attr_get getattrs", &[Query(Inch)], b"no call answers the attributes of a window"),
      (b"attr_off attr_on", &[Writing(Attron), Writing(Attroff)], b""),
      (b"attr_set", &[Writing(Attrset), Writing(ColorSet)], b"")],
    &[(b"baudrate cur_term def_prog_mode def_shell_mode del_curterm has_ic has_il longname mcprint putp reset_prog_mode reset_shell_mode resetty restartterm \
       savetty set_curterm set_tabsize setupterm term_attrs termattrs termname tgetent tgetflag tgetnum tgetstr tgoto tigetflag tigetnum tigetstr tiparm \
       tparm tputs use_env use_extended_names use_legacy_coding use_tioctl vid_attr vid_puts vidattr vidputs",
       &[], b"no call asks the terminal anything, or sets its modes"),
      (b"beep flash", &[], b"no call rings or flashes"),
      (b"bkgd", &[Writing(Bkgdset), Writing(Bkgdpair), Writing(Erase)], b""),
      (b"bkgrnd bkgrndset", &[Writing(Bkgdset)], b"characters are those of ASCII"),
      (b"can_change_color init_color init_extended_color", &[Refresh(InitPair)], b"the eight colours can't be changed"),
      (b"cbreak crmode define_key erasechar flushinp get_escdelay get_wch get_wstr getch getche getkey getn_wstr getnstr getstr halfdelay has_key intrflush \
       key_defined keybound keyname keyok keypad killchar meta nocbreak nocrmode nodelay noecho nonl noqiflush noraw notimeout qiflush raw scanw \
       set_escdelay timeout typeahead unget_wch ungetch vw_scanw vwscanw", &[], b"no call reads keys"),
      (b"ceiling_panel", &[Stacking(PanelBelow)], b"its argument none asks for the top panel"),
      (b"chgat", &[Writing(Attrset), Writing(Addstr)], b"what is written keeps its attributes"),
      (b"color_content extended_color_content extended_pair_content pair_content", &[Refresh(InitPair)], b"no call answers a colour")],
    &[(b"curs_set", &[], b"no call hides or shows the cursor"),
      (b"curscr newscr", &[], b"no call takes this screen"),
      (b"curses_trace curses_version trace", &[], b"no call traces or names a version"),
      (b"cursyncup", &[Writing(Move)], b"an ancestor's cursor is moved by itself"),
      (b"delay_output napms", &[], b"no call waits"),
      (b"delscreen endwin exit_curses init_screen initscr isendwin new_prescr newterm set_term use_screen use_window wrapper",
       &[], b"the screen is there from the first line on, and ends with the script"),
      (b"dupwin", &[Making(Newwin), Copying(Overwrite)], b""),
      (b"echo", &[Writing(Addstr)], b"texts are written, and no keys are read or echoed"),
      (b"echochar", &[Writing(Addch), Refresh(Noutrefresh), Refresh(Doupdate)], b"")],
    &[(b"enclose getmouse has_mouse mouse mouse_trafo mouseinterval mousemask ungetmouse wenclose", &[], b"no call reads the mouse"),
      (b"erasewchar getbkgrnd getcchar in_wch in_wchnstr in_wchstr innwstr ins_nwstr ins_wch ins_wstr inwstr key_name killwchar setcchar setlocale unctrl \
       wunctrl", &[], b"characters are those of ASCII"),
      (b"extended_slk_color slk_attr slk_attr_off slk_attr_on slk_attr_set slk_attroff slk_attron slk_attrset slk_clear slk_color slk_init slk_label \
       slk_noutrefresh slk_refresh slk_restore slk_set slk_touch slk_wset", &[], b"there are no soft labels"),
      (b"filter is_term_resized nofilter resize_term resizeterm ripoffline", &[], b"the screen keeps its size"),
      (b"form_driver free_field free_form free_item free_menu menu_driver new_field new_form new_item new_menu post_form post_menu unpost_form unpost_menu",
       &[], b"there are no menus or forms"),
      (b"getbegx getbegy", &[Query(Getbegyx)], b""),
      (b"getbkgd", &[Query(Inch)], b"no call answers a background"),
      (b"getcurx getcury getsyx", &[Query(Getyx)], b""),
      (b"getdelay getparent getscrreg is_cbreak is_cleared is_echo is_idcok is_idlok is_immedok is_keypad is_leaveok is_nl is_nodelay is_notimeout is_pad is_raw \
       is_scrollok is_subwin is_syncok", &[], b"no call answers this")],
    &[(b"getmaxx getmaxy", &[Query(Getmaxyx)], b""),
      (b"getparx getpary", &[Query(Getparyx)], b""),
      (b"getwin putwin scr_dump scr_init scr_restore scr_set", &[], b"nothing is saved or loaded"),
      (b"ground_panel", &[Stacking(PanelAbove)], b"its argument none asks for the bottom panel"),
      (b"has_colors init_extended_pair reset_color_pairs start_color", &[Refresh(InitPair)], b"colours are there from the first line on"),
      (b"hidden is_hidden", &[Stacking(PanelHidden)], b""),
      (b"idcok idlok immedok leaveok syncok", &[], b"no window has this flag"),
      (b"inchnstr inchstr innstr instr", &[Query(Inch)], b"no call answers more than one cell"),
      (b"insdelln", &[Writing(Insertln), Writing(Deleteln)], b"")],
    &[(b"insnstr insstr", &[Writing(Insch)], b"no call inserts more than one character"),
      (b"mvcur setsyx", &[Writing(Move)], b""),
      (b"nl", &[Writing(Addstr)], b"a text has \\n for a newline"),
      (b"panel_userptr set_panel_userptr set_userptr userptr", &[], b"a panel has no pointer"),
      (b"pechochar", &[Writing(Addch), Refresh(Pnoutrefresh), Refresh(Doupdate)], b""),
      (b"prefresh", &[Refresh(Pnoutrefresh), Refresh(Doupdate)], b""),
      (b"printw vprintw vsscanf vw_printw vwprintw", &[Writing(Addstr)], b"no call takes a format"),
      (b"redrawln redrawwin", &[Writing(Clearok), Copying(Touchwin)], b""),
      (b"refresh wrefresh", &[Refresh(Noutrefresh), Refresh(Doupdate)], b"")],
    &[(b"resize", &[Making(Newwin), Copying(Overwrite)], b"a window keeps its size"),
      (b"scroll", &[Writing(Scrl)], b""),
      (b"standend", &[Writing(Attrset)], b"attributes 00 are none"),
      (b"standout", &[Writing(Attron)], b"attributes 10 are reverse"),
      (b"stdscr", &[], b"stdscr is window 0, and no call"),
      (b"a_bold a_dim a_invis a_reverse a_underline attr attribute attributes attrs blink bold dim highlight inverse invert italic normal reverse set_attr \
       setattr style underline", &[Writing(Attrset), Writing(Attron), Writing(Attroff), Writing(ColorSet)], b""),
      (b"add add_char add_string add_text addchar addstring addtext append display fputs message out outch output print print_string println prints put put_char \
       put_string putc putch putchar puts putstr puttext say string text type write write_char write_text writeln",
       &[Writing(Addstr), Writing(Addch)], b""),
      (b"add_panel create create_panel create_window createwin make make_panel make_window makewin new new_pad new_window newwindow open_panel open_window \
       openwin pad panel panel_create panel_new win window", &[Making(Newwin), Making(Newpad), Stacking(NewPanel)], b""),
      (b"alias awk bash cat cd chmod cp curl eval exec find git grep head kill ls mkdir mv pwd python python3 rm sed sh ssh sudo tail test trap xargs",
       &[], b"a script runs no programs")],
    &[(b"and as assert break case catch class const continue declare def defer do done elif else end endif esac except export fi finally fn for foreach from \
       func function if impl import in int lambda let local loop not or pass proc pub raise readonly repeat require return select self set shift static \
       struct switch then throw try typeset unless unset until use using var void while with yield", &[], b"a line is a call, a comment or empty"),
      (b"back bottom bring_to_front front lower lower_panel panel_bottom panel_top raise_panel send_to_back to_front top",
       &[Stacking(TopPanel), Stacking(BottomPanel)], b""),
      (b"background bg black blue color color_blue color_green color_red color_white color_yellow colors colour colours cyan fg foreground green magenta pair \
       red set_color set_pair setab setaf setcolor white yellow", &[Refresh(InitPair), Writing(ColorSet)], b""),
      (b"bye end_of_script exit quit stop", &[], b"the screen ends with the script"),
      (b"check curspan paint run version", &[], b"this belongs on the command line"),
      (b"clear_line clear_to_eol cleareol clearline clreol erase_line", &[Writing(Clrtoeol)], b""),
      (b"clear_screen clear_window clearscreen clr clrscr cls reset wipe", &[Writing(Clear), Writing(Erase)], b""),
      (b"close close_window closewin del_window delete_panel delete_window deletepanel destroy_panel destroy_window destroywin free_panel remove_panel rmwin",
       &[Making(Delwin), Stacking(DelPanel)], b""),
      (b"cols columns get_max get_size getmax getsize height lines rows size width",
       &[Query(Getmaxyx)], b"the screen's size is given before the script runs")],
    &[(b"copy copy_window copywindow", &[Copying(Copywin), Copying(Overwrite), Copying(Overlay)], b""),
      (b"cup cursor go_to goto_xy gotoxy gotoyx locate move_cursor move_to movecursor moveto position set_cursor setcursor setpos", &[Writing(Move)], b""),
      (b"del_char del_line delete delete_char delete_line deletechar deleteline delline", &[Writing(Delch), Writing(Deleteln)], b""),
      (b"delay pause sleep usleep wait", &[], b"no call waits"),
      (b"draw draw_screen flip flush redraw render repaint show_screen sync update update_screen", &[Refresh(UpdatePanels), Refresh(Doupdate)], b""),
      (b"draw_box drawbox frame line rect rectangle", &[Writing(Addstr)], b"lines are drawn by + - and |"),
      (b"format fprintf printf sprintf", &[Writing(Addstr)], b"no call takes a format"),
      (b"get_cursor getcursor getpos", &[Query(Getyx)], b""),
      (b"get_key getc getchar gets input key keys read read_key readkey readline", &[], b"no call reads keys")],
    &[(b"help info man usage", &[], b"man curspan gives help"),
      (b"hide hide_window panel_hide panel_show show show_window", &[Stacking(ShowPanel), Stacking(HidePanel)], b""),
      (b"ins_line insert insert_char insert_line insertch insertchar insertline", &[Writing(Insch), Writing(Insertln)], b""),
      (b"move_window movewin movewindow", &[Making(Mvwin), Stacking(MovePanel)], b""),
      (b"mv_panel mvpanel panel_move", &[Stacking(MovePanel)], b""),
      (b"replace swap_panel", &[Stacking(ReplacePanel)], b""),
      (b"scroll_down scroll_up scrolldown scrollup", &[Writing(Scrl)], b""),
      (b"touch touch_window touchwindow", &[Copying(Touchwin)], b"")],
];

#[rattlefmt::skip]
pub const COLOURS: [&[Advice]; 1] = [
    &[(b"black color_black", &[], b"black is 0"),
      (b"blue color_blue", &[], b"blue is 4"),
      (b"color_cyan cyan", &[], b"cyan is 6"),
      (b"color_green green", &[], b"green is 2"),
      (b"color_magenta magenta", &[], b"magenta is 5"),
      (b"color_red red", &[], b"red is 1"),
      (b"color_white white", &[], b"white is 7"),
      (b"color_yellow yellow", &[], b"yellow is 3")],
];

#[rattlefmt::skip]
pub const ATTRIBUTES: [&[Advice]; 1] = [
    &[(b"a_blink blink", &[], b"blinking is 08"),
      (b"a_bold bold", &[], b"bold is 01"),
      (b"a_dim dim", &[], b"dim is 02"),
      (b"a_invis invis invisible", &[], b"invisible is 20"),
      (b"a_normal none normal", &[], b"none is 00"),
      (b"a_reverse a_standout inverse reverse standout", &[], b"reverse is 10"),
      (b"a_underline underline underlined", &[], b"underlined is 04")],
];
