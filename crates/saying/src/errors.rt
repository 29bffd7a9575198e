// The system's numbers for errors that the programs name, and its words for them.
pub const EPERM: i32 = 1;

pub const ENOENT: i32 = 2;

pub const EINTR: i32 = 4;

pub const EIO: i32 = 5;

pub const ENXIO: i32 = 6;

pub const EBADF: i32 = 9;

pub const EAGAIN: i32 = 11;

pub const ENOMEM: i32 = 12;

pub const EACCES: i32 = 13;

pub const EEXIST: i32 = 17;

pub const ENODEV: i32 = 19;

pub const ENOTDIR: i32 = 20;

pub const EISDIR: i32 = 21;

pub const EINVAL: i32 = 22;

pub const ENFILE: i32 = 23;

pub const EMFILE: i32 = 24;

pub const EFBIG: i32 = 27;

pub const ENOSPC: i32 = 28;

pub const EROFS: i32 = 30;

pub const ENAMETOOLONG: i32 = 36;

pub const ELOOP: i32 = 40;

pub const EOVERFLOW: i32 = 75;

pub const EILSEQ: i32 = 84;

pub const ECONNRESET: i32 = 104;

pub const ENOTCONN: i32 = 107;

pub const ETIMEDOUT: i32 = 110;

pub const ESTALE: i32 = 116;

pub const EDQUOT: i32 = 122;

// The system's words for an error.
pub fn words_of(error: i32) -> &'static [u8] {
    match error {
        EPERM => b"Operation not permitted",
        ENOENT => b"No such file or directory",
        EINTR => b"Interrupted system call",
        EIO => b"Input/output error",
        ENXIO => b"No such device or address",
        EBADF => b"Bad file descriptor",
        EAGAIN => b"Resource temporarily unavailable",
        ENOMEM => b"Cannot allocate memory",
        EACCES => b"Permission denied",
        EEXIST => b"File exists",
        ENODEV => b"No such device",
        ENOTDIR => b"Not a directory",
        EISDIR => b"Is a directory",
        EINVAL => b"Invalid argument",
        ENFILE => b"Too many open files in system",
        EMFILE => b"Too many open files",
        EFBIG => b"File too large",
        ENOSPC => b"No space left on device",
        EROFS => b"Read-only file system",
        ENAMETOOLONG => b"File name too long",
        ELOOP => b"Too many levels of symbolic links",
        EOVERFLOW => b"Value too large for defined data type",
        EILSEQ => b"Invalid or incomplete multibyte or wide character",
        ECONNRESET => b"Connection reset by peer",
        ENOTCONN => b"Transport endpoint is not connected",
        ETIMEDOUT => b"Connection timed out",
        ESTALE => b"Stale file handle",
        EDQUOT => b"Disk quota exceeded",
        _ => b"Another error",
    }
}
