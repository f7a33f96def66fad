//! The words of the help texts.

pub(crate) const VERSION: &str = "0.1.0";

pub(crate) const ABOUT: &str =
    "Edits headers, integer pixels and checksums of FITS files, and verifies them";

pub(crate) const EDIT: &str = "Edits a file by the lines of a script";

pub(crate) const EDIT_USAGE: &str = "fitsed edit [OPTIONS] <IN> <OUT>
       fitsed edit -i [OPTIONS] <FILE>...";

pub(crate) const WHY_LINES: &str =
    "Say more on standard error: why a line isn't done, which file failed, and why";

pub(crate) const WHY_FILES: &str = "Say more on standard error: which file failed, and why";

pub(crate) const ASK: &str = "Answers the lines of a script, and saves nothing";

pub(crate) const LIST: &str = "Prints a line for each HDU of a file";

pub(crate) const SUM: &str =
    "Prints the sum of each HDU's data, and whether DATASUM and CHECKSUM are right";

pub(crate) const STAT: &str =
    "Prints the least and greatest value and the sum of the pixels of each HDU";

pub(crate) const VERIFY: &str = "Prints what is wrong with a file, and counts it";

pub(crate) const CARDS: &str = "Prints the cards of headers";

pub(crate) const KEYS: &str = "Prints the values of keywords, a line for each file";

pub(crate) const DIFF: &str = "Prints what differs in two files";

pub(crate) const STATUSES: &str = "Exit status:
  0  done
  1  a line of the script was refused or bad; verify found an error, or edit -c more than there
     were
  2  a wrong command line, a file that doesn't open, or a script that is too long
  3  a file or stream can't be read or written, or memory ran out

Examples:
  fitsed list in.fits
  fitsed cards -k DATE-OBS *.fits
  fitsed ask -e 'get 1 EXPTIME' *.fits
  fitsed verify -l *.fits
  fitsed diff a.fits b.fits
  fitsed edit -e \"set 1 OBSERVER 'N. Night'\" -e 'stamp 1' in.fits out.fits

fitsed(1) has the lines of a script and the codes of a report.";

pub(crate) const LISTED: &str = "Each line: hdu N CLASS bitpix B axes A cards C at HEADER DATA END
  N counts from 1; CLASS is PRIMARY, GROUPS, IMAGE, TABLE or OTHER; the last three are the
  bytes, from 0, at which its header begins, its data begin, and it ends. With -l there stands
  before at what an extension is called, as far as it says: type 'XTENSION' name 'EXTNAME' ver
  EXTVER; of the primary HDU the name alone.

Exit status:
  0  done
  2  a wrong command line, or a file that doesn't open
  3  the file can't be read, the listing can't be written, or memory ran out";

pub(crate) const SUMMED: &str =
    "Each line: HDU, sum of its data, verdict on DATASUM, verdict on CHECKSUM
  1 is right, 0 says nothing or isn't there, -1 is wrong.

Exit status:
  0  done, whatever the verdicts are; with -c none is wrong
  1  with -c, a sum is wrong
  2  a wrong command line, or a file that doesn't open
  3  the file can't be read, the sums can't be written, or memory ran out";

pub(crate) const FOUND: &str = "Each line: CODE HDU PLACE TEXT, and at the end the counts
  An E is an error, a W a warning; place 0 is the HDU as a whole. With -p the lines are
  CODE HDU PLACE TEXT: CARD, as cards prints it; place 0 has none. With -s they are CODE COUNT TEXT,
  one for each code that was found, by its number; -p does nothing then.

Exit status:
  0  no error, perhaps warnings; with -w none either
  1  an error; with -w an error or a warning
  2  a wrong command line, or a file that doesn't open
  3  the file can't be read, the report can't be written, or memory ran out

fitsed(1) has the codes.";

pub(crate) const STATED: &str =
    "Each line: HDU defined D blank B min X max Y sum S, or HDU - where it is no image of integers
  Values are the stored numbers, with the offset of unsigned integers and signed bytes; other
  BSCALE and BZERO aren't applied.

Exit status:
  0  done
  2  a wrong command line, or a file that doesn't open
  3  the file can't be read, the lines can't be written, or memory ran out";

pub(crate) const SHOWN: &str = "Each line: HDU PLACE CARD, without the spaces at its end
  HDUs and places count from 1; END has no place. After 'put ' each is a line of a script.
  A NAME with an asterisk at its end stands for all that begin so. Cards that go on with a
  long string are printed with it. For the number of an HDU @NAME or @NAME,VER may stand: the
  first extension of that EXTNAME and EXTVER. Of a file that doesn't open the cards before the
  fault are printed.

Exit status:
  0  done
  1  a card has bytes that aren't text, printed as ?; or none is printed though some are asked for
  2  a wrong command line, or a file that doesn't open
  3  the file can't be read, the cards can't be written, or memory ran out";

pub(crate) const KEYED: &str =
    "Each line: FILE, and the value of each NAME after a tab; the first line has the names
  Values are as get prints them, strings without quotes. A field is empty where no card of the
  NAME has a value that can be read, or the file has no such HDU.

Exit status:
  0  done
  2  a wrong command line, or a file that doesn't open
  3  the file can't be read, the lines can't be written, or memory ran out";

pub(crate) const COMPARED: &str =
    "Each line: - HDU PLACE CARD of A, or + HDU PLACE CARD of B; or how HDUs differ otherwise
  Cards are matched in their order: those that both headers have in the same order have no line.
  Bytes of data count from 0, and the fill counts as data.
  With -s each line is ins H P CARD, put H P CARD or del H P: run over A, in this order, by
  fitsed edit -a, they make the cards of its headers those of B. Data aren't compared then.

Exit status:
  0  the files are the same, byte for byte; with -s: no line is wanted
  1  they aren't, or lines are
  2  a wrong command line, or a file that doesn't open; with -s: there is no such script
  3  a file can't be read, the lines can't be written, or memory ran out";

pub(crate) const LINES: &str = "Lines of the script, words separated by one space:
  ins H P CARD         insert a card at place P of HDU H
  put H P CARD         put a card instead of the one at place P
  del H P              delete the card at place P
  mov H P Q            move the card at place P to place Q
  set H NAME FIELD     give a keyword a value and a comment, as VALUE / COMMENT
  unset H NAME         delete a keyword
  fill H RECT V        give each pixel of a rectangle the value V
  write H RECT V ..    give the pixels of a rectangle these values
  reshape H KIND AXES  make an image another, such as reshape 2 i32 100,300: the pixels
                       that stay keep their values
  new H KIND AXES      put a new image in as HDU H, such as new 2 i16 100,200
  rm H                 take HDU H out
  stamp H              write DATASUM and CHECKSUM so that both are right
  keep H               stamp HDU H, and again after each edit of it
  release H            keep HDU H stamped no longer
  get H NAME           print the value of a keyword
  pos H NAME           print the places of the cards of a keyword
  stat H               print how many pixels are defined, their least, greatest and sum
  rect H RECT          print the values of a rectangle
  sum H                print the sum of the data unit, and whether both sums are right
  kept H               print whether HDU H is kept stamped: yes or no
  off                  print where each HDU begins, its data begin, and it ends
  rep                  print what is wrong, and count it
  # text               nothing; so does an empty line
With -x extended lines too, each for some of these, by the file as it is then:
  val H NAME FIELD     give a keyword a value: its comment stays, and none is added
  note H NAME COMMENT  give a keyword a comment: its value stays
  ren H NAME NEW       give a keyword another name: all else of it stays
  add H CARD           insert a card after the last that isn't blank
  hist H TEXT          insert as many HISTORY cards as the text needs
  want H NAME FIELD    nothing, where the keyword has this value; else it is refused
  want H NAME          nothing, where there is such a card; else it is refused
  lack H NAME          nothing, where there is none; else it is refused
  and for the number H @NAME or @NAME,VER: the first extension of that EXTNAME and EXTVER
  and with -a in edits *: each HDU, in order; nothing is saved if one refuses
  and in get, pos, stat, rect, sum and kept *: each HDU, its number before its answer
Values of pixels are the stored numbers, with the offset of unsigned integers and signed bytes;
other BSCALE and BZERO aren't applied.

Exit status:
  0  done
  1  a line of the script was refused or bad: the others were done, and edit saved OUT, but
     not with -a; or there were more errors than in IN, and edit -c saved nothing
  2  a wrong command line, a file that doesn't open, or a script that is too long
  3  a file or stream can't be read or written, or memory ran out

fitsed(1) says when a line is refused, and how OUT is written.";
