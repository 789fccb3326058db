//! The same of 652 random texts, from the seed 15 on.

/// What is reported of a text, a bar, and the text.
pub const RANDOM_PLACES: &str = "\
    deep 402 | print 7{200  div n} *\nstops 0 | > ) +\nstops 11 | proc n ( n : 7 .. 7 , n :\n\
    stops 451 | {62 while n < n limit 7 do }if n = n then else while ( ( - ( n mod ( ( 7 div\n\
    stops 4 | while - - 7\nstops 0 | div mod , n proc := 7\n\
    stops 324 | {64 if n < n then } n [ ( ( ; read proc read\nstops 1 | var\nstops 2 | var n\n\
    stops 452 | {62 while n < n limit 7 do }if n = n then else n ( 7 ) ; for n := 7 mod 7 mod\n\
    stops 6 | if 7 * - ( (\nstops 11 | proc n ( n : - 7 .. - 7 ) to\nstops 317 | {63 if n < n then } print 7\n\
    stops 8 | read n [ - - 7 mod n\nstops 6 | if ( - - - n print print ;\nstops 205 | n(n, {200 (} n >\n\
    stops 0 | ) mod div for ; * ( print mod ) div\nstops 8 | print n div ( 7 - n *\n\
    stops 403 | print {100 n[}7{99 *n} ] * 7\nstops 0 | mod >= < n if 7\nstops 2 | if 7 := mod then\n\
    stops 401 | print {100 n[}7{99 *n} ] > <>\nstops 0 | = [ if proc for proc =\nstops 1 | proc end div div .. :\n\
    stops 201 | if {200 (} = , < to\nstops 4 | if 7 < n ; to <> while var div 7 *\nstops 5 | if n <= 7 div\n\
    stops 324 | {63 if n < n then } end while - ( - ( ( n [\nstops 2 | if ( + do to >= to\n\
    stops 5 | while ( n * n = limit div read\nstops 202 | print {199 -} - 7\nstops 6 | array n [ 7 ] :\n\
    stops 4 | if ( 7 * .. [ else < > :\ndeep 203 | while n = {200 -} - - - ( else\nstops 7 | proc n ( n : - 7\n\
    stops 6 | read n ; read n ; <> array , limit do <>\n\
    deep 202 | print {199 -} - n mod ( - ( proc array < to if print\n\
    stops 7 | array n [ 7 ] : - := ] end div var\nstops 7 | print 7 - 7 + 7 + ,\ndeep 203 | read n[{200 -} -\n\
    stops 11 | print - - 7 - 7 mod ( - ( 7\nstops 4 | read n ; n\n\
    stops 448 | {64 for n := 7 to n do } then + : ( var >=\nstops 0 | - while array\n\
    stops 9 | while ( ( - - - - - (\nstops 316 | {63 if n < n then } end\nstops 7 | var n : - 7 .. -\n\
    stops 1 | proc var proc print read mod <= <>\ndeep 204 | for n := {200 -} 7 mod 7 div - n\n\
    stops 0 | : ) for else * mod = >= while\nstops 11 | read n ; n [ - 7 + n mod -\n\
    stops 389 | {64 if n < n then }{64 end } n := - - 7 var , <\nstops 1 | array ) end\n\
    stops 2 | if n then + * limit\ndeep 448 | {64 for n := 7 to n do } if 7 <= 7 * ( - ( ,\n\
    stops 12 | print - n - - ( n * - n div (\nstops 4 | print 7 ; print <> for ;\n\
    deep 402 | print 7{200  div n} - 7 *\nstops 8 | if ( ( n ) ) - -\nstops 0 | else )\n\
    deep 325 | proc n() do {64 if n < n then } for n := - - limit to <=\nstops 9 | if - n * 7 < ( - 7\n\
    stops 6 | array n [ 7 ] : do : to\nstops 400 | print 7{199 +n} to .. read read print while\n\
    stops 4 | while ( ( n\nstops 2 | read n\ndeep 203 | for n := {200 -} ( 7 mod - 7 ) proc else -\n\
    stops 2 | n [ = n : do - div ] <> <=\nstops 7 | print ( - 7 ) * 7\n\
    stops 444 | {62 while n < n limit 7 do }if n = n then else end for n := div end limit div\nstops 2 | n :=\n\
    stops 2 | n (\ndeep 402 | print 7{199 +n} + 7 * ( - 7\nstops 1 | for\nstops 4 | for n := 7 limit\n\
    deep 202 | print {198 (}n * - ( :\nstops 2 | if - <= [ ; <>\nstops 3 | array n [\n\
    stops 203 | read n[{200 -} ) n ]\nstops 4 | n [ n mod\nstops 3 | print 7 + to n ( mod\n\
    deep 404 | n({200 -}n, {199 -} ( (\nstops 0 | .. n 7 >= >= while\nstops 2 | while (\n\
    stops 402 | print 7{199 +n} div n do do end\nstops 4 | read n [ ( ;\nstops 8 | while ( - n mod - n [\n\
    deep 521 | {64 if n < n then }print {200 -} - ( - - 7 mod var <= >= [ while\nstops 3 | if ( - else else\n\
    stops 3 | print n + ] ( print = array = if > do\ndeep 403 | if {200 -}n < {199 -} ( ( 7 *\n\
    stops 1 | print >= array to * .. proc\nstops 0 | <= ; ] 7 proc array limit <> read , + ;\n\
    deep 203 | print {199 -} n mod n *\nstops 4 | var n : 7 > do then array - >\nstops 2 | print 7\n\
    stops 409 | n({200 -}n, {199 -} 7 * 7 , 7 * do n then -\nstops 2 | read n ] limit * limit >= to\n\
    stops 5 | print - - n div\ndeep 203 | read n[{200 -} - n - - n - (\nstops 8 | read n [ n - 7 div 7\n\
    stops 12 | n := ( n [ ( n * ( - 7 )\ndeep 325 | proc n() do {64 if n < n then } if ( 7 while do mod >\n\
    stops 5 | read n ; print -\nstops 8 | array n [ 7 ] : - 7\n\
    deep 210 | var n: -7..-7; print {200 -} ( 7 = print var ( ; end\nstops 9 | array n [ 7 ] : - 7 ..\n\
    stops 8 | print - n + 7 div - 7\ndeep 201 | if {200 (} - 7 ) ] .. then <> end n < )\n\
    stops 3 | for n := > proc .. <\nstops 11 | array n [ 7 ] : 7 .. 7 ; if\n\
    deep 320 | {64 if n < n then } for n := n = < to print while read [ <>\nstops 0 | div\n\
    stops 7 | n := 7 + ( 7 -\nstops 448 | {62 while n < n limit 7 do }if n = n then else read n [ ( n ) - n\n\
    stops 5 | proc n ( ) do div <> var\nstops 3 | print ( n\ndeep 204 | read n[{200 -} 7 * 7\n\
    stops 4 | var n : -\nstops 2 | if 7\nstops 386 | {64 if n < n then }{64 end } while 7\nstops 2 | for n\n\
    stops 1 | var := ; ) : to to array read <= n limit\ndeep 203 | while n = {200 -} ( 7 * ( - n [ n + 7\n\
    stops 3 | proc n (\nstops 11 | proc n ( n : - 7 .. 7 , n\ndeep 204 | n(n, {200 (} ( n * - n for\n\
    stops 1 | if <> n\nstops 0 | < <= ) > <= if >\ndeep 202 | print {199 -} - 7 * - >= + >= var print then\n\
    stops 2 | print n <= <> div then then + ;\nstops 5 | if n <> - 7\nstops 201 | print {199 -} n\n\
    stops 6 | read n [ - ( ( = else , array := proc\nok | var n : 7 .. - 7 ;\n\
    deep 203 | for n := {200 -} - 7 + n * do ; * proc <= <=\nstops 3 | print - n\n\
    stops 5 | proc n ( ) do < - mod\ndeep 203 | for n := {200 -} - < then [ : if - for +\n\
    stops 2 | array n ] while , 7 if for\nstops 3 | if 7 >\nstops 4 | for n := -\nstops 6 | print ( 7 * n +\n\
    stops 6 | print 7 * n mod n\ndeep 521 | {64 if n < n then }print {200 -} ( - - ( - 7 + n * n [ -\n\
    stops 1 | n\nstops 0 | + < print if > <>\ndeep 448 | {64 for n := 7 to n do } if\n\
    stops 2 | read n end for .. ( = read ] ; array limit\nstops 3 | for n := for if 7 end <> >= else proc div\n\
    stops 201 | if {200 (} ; to > <>\nstops 5 | proc n ( ) do = array print\n\
    stops 8 | proc n ( ) do end if ( proc\ndeep 202 | print {200 (}7 * - print .. = <> array then 7\n\
    stops 5 | for n := n +\nstops 5 | array n [ 7 ] .. 7 -\ndeep 401 | print 7{199 +n} mod - n - - 7 +\n\
    stops 10 | while n <= n [ n [ n + 7\nstops 1 | read ( - to div limit then\n\
    deep 203 | while n = {200 -} - n if := end else if :\nstops 3 | array n [ limit\nstops 6 | print - ( n ) mod\n\
    deep 204 | n(n, {200 (} ( n - ( 7 * (\nstops 11 | proc n ( n : 7 .. - 7 ) var\nstops 4 | n := - (\n\
    deep 202 | print {200 (}7 mod - <= := to to >\nstops 5 | proc n ( ) var >= - >=\n\
    stops 1 | while then <> read then if proc = do\ndeep 203 | read n[{200 -} - 7\n\
    stops 7 | print 7 ; print 7 div -\nstops 5 | array n [ 7 ]\n\
    deep 402 | print 7{200  div n} - := : for >= end = for - then >\nstops 1 | if = mod\n\
    stops 8 | read n ; if ( ( ( -\ndeep 328 | proc n() do {64 if n < n then } read n ; while 7\n\
    stops 3 | array n [ do <> var := - ( , do print\nstops 9 | n := n [ - - n div n\n\
    stops 329 | proc n() do {64 if n < n then } print - - n\nstops 10 | read n ; for n := n + n mod\n\
    stops 2 | read n div ( if ]\nstops 404 | n({200 -}n, {199 -} (\nstops 10 | n := ( ( ( ( 7 + n )\n\
    stops 11 | read n [ - 7 * 7 - - - n\ndeep 405 | n({200 -}n, {199 -} n mod ( 7 div 7 mod ( - 7\n\
    stops 2 | print n\nstops 2 | print - var [ ) var div array proc = :\nstops 403 | if {200 -}n < {199 -} (\n\
    stops 6 | read n ; n ( - <= limit [ limit\nstops 4 | while ( - (\nstops 8 | array n [ 7 ] : 7 ..\n\
    stops 0 | ) read - + - ]\nstops 11 | print ( ( - 7 - 7 mod 7 * 7\ndeep 201 | if {200 (} ( 7 ) ) div - 7\n\
    stops 7 | print 7 + 7 mod n div\nstops 1 | while array proc print array div := +\n\
    stops 521 | {64 if n < n then }print {200 -} end * ] end read\nstops 9 | n [ 7 * - 7 - ( ( array n ]\n\
    stops 7 | print n div 7 + 7 -\ndeep 402 | print 7{200  div n} [ - n mod - - - - mod *\n\
    stops 7 | array n [ 7 ] : 7\nstops 3 | print 7 mod =\ndeep 203 | read n[{200 -} ( : < proc while\n\
    stops 0 | then = mod .. proc > do\nstops 3 | while - - while array\n\
    deep 522 | {64 if n < n then }print {200 -} n * ( - div var limit + if ] =\nstops 3 | n [ 7\n\
    stops 4 | if n + n for :=\nstops 5 | print - ( n +\nstops 2 | print ( , while print else then\n\
    stops 3 | if n mod\ndeep 325 | proc n() do {64 if n < n then } if n\nstops 9 | print ( - 7 * n - 7 )\n\
    ok | read n ;\nstops 522 | {64 if n < n then }print {200 -} 7\nstops 4 | var n : 7 , n\n\
    stops 7 | var n : 7 .. - 7\ndeep 204 | while n = {200 -} n + limit\nstops 0 | - proc end div := limit to\n\
    stops 12 | read n ; while ( 7 mod 7 ) = - (\nstops 385 | {64 if n < n then }{64 end } read\n\
    stops 4 | array n [ 7\nstops 6 | read n [ - ( 7\ndeep 203 | n[{199 -} ( 7 - - 7 div -\n\
    stops 2 | for n read div ] to [ 7 else for\nstops 5 | if 7 < ( n if ; <=\n\
    stops 0 | limit ) if + <= ) for end proc ]\nstops 2 | print ( ) end\nstops 4 | n ( ( ( .. n else\n\
    deep 407 | for n := {200 -}n to {199 -} 7 mod 7 + -\nstops 7 | if n <= - 7 * -\nstops 1 | if >= end\n\
    stops 406 | for n := {200 -}n to {199 -} ( 7\nstops 1 | for end array var .. array then end to < then\n\
    stops 7 | print - - - - ( 7\nstops 445 | {62 while n < n limit 7 do }if n = n then else if 7 >= - (\n\
    stops 6 | for n := - - 7\nstops 2 | array n >=\nstops 315 | {63 if n < n then } <= limit ,\n\
    stops 4 | n ( ( n >= read do read :\nstops 3 | print 7 *\n\
    deep 321 | {64 if n < n then } else if n [ ( 7 - ( 7 + 7 +\nstops 11 | while 7 <> 7 + - ( - ( ( -\n\
    stops 4 | n := n -\nstops 387 | {64 if n < n then }{64 end } if n > ,\nstops 6 | if - 7 <> n then\n\
    stops 7 | while - - 7 < 7 -\nstops 325 | {63 if n < n then } read n ; read n ; n := - n\n\
    stops 1 | array then < <= 7 for > ] <>\nstops 0 | + for := ]\nstops 405 | for n := {200 -}n to {199 -} 7\n\
    stops 5 | for n := 7 +\nstops 6 | n ( ) ; while -\ndeep 202 | print {200 (}7 mod ( - - - ( -\n\
    stops 12 | if 7 <= - n + 7 * n div - (\nstops 4 | if 7 >= 7 read ( while [\n\
    deep 204 | while n = {200 -} n - ( - n div ( *\nstops 1 | n do <= [ mod (\nok | var n : - 7 .. - 7 ;\n\
    stops 404 | if {200 -}n < {199 -} n +\nstops 2 | array n\nstops 0 | mod < > ) >= := >= else ( :=\n\
    stops 449 | {64 for n := 7 to n do } read > <=\nstops 7 | proc n ( ) do read n\nstops 7 | while ( 7 * - - (\n\
    deep 203 | n[{200 (}n + n - ( 7 := else -\nstops 1 | print <> then then then\nstops 8 | while - - - ( ( ( (\n\
    stops 0 | ;\nstops 6 | print - - 7 mod 7 to print limit ]\nstops 8 | n [ 7 div ( 7 ) div\n\
    stops 393 | {64 if n < n then }{64 end } while - 7 > - 7 + 7 -\nstops 4 | var n : 7\nstops 5 | print ( ( 7 +\n\
    deep 201 | print {200 -} - ( n\nstops 5 | var n : 7 ..\nstops 3 | var n : ; - * >= else\n\
    deep 202 | print {200 (}7 mod >= var to var ,\nstops 0 | = div = if 7\nstops 3 | var n : [\n\
    stops 337 | proc n() do {64 if n < n then } else print n div - - ( 7 - n * 7\nstops 5 | n [ n ] :=\n\
    stops 4 | while ( n [\nstops 444 | {62 while n < n limit 7 do }if n = n then else for n := 7\nstops 0 | > if\n\
    stops 4 | if ( - n\ndeep 203 | print {200 (}7 ) - ( n div n mod 7 -\n\
    stops 6 | while 7 mod - n <> := > end for end n\nstops 3 | while n <=\n\
    stops 440 | {62 while n < n limit 7 do }if n = n then else var - : [ to [ )\nstops 7 | read n [ - 7 mod n\n\
    stops 3 | if n >=\ndeep 203 | print {200 (}7 ) div n\nstops 0 | ) array div ) := := ) > <> [ for *\n\
    stops 8 | proc n ( ) var n : 7\nstops 204 | print {199 -} - n ; print for [\n\
    stops 8 | proc n ( n : 7 .. - [ :=\nstops 6 | proc n ( ) var n + 7\n\
    stops 326 | {64 if n < n then } end else if - n [\nstops 4 | read n [ 7\n\
    stops 1 | read := while if , : + < [ 7 ,\n\
    deep 522 | {64 if n < n then }print {200 -} n div n div ( to 7 while array <> end\nstops 2 | n [ <> <= :\n\
    stops 3 | read n ; <= div + limit 7 div >= print ,\ndeep 205 | n(n, {200 (} 7 mod while ] read >= :\n\
    stops 6 | proc n ( ) do end ; , then div\nstops 1 | n while\nstops 5 | while ( n [ - div =\n\
    stops 10 | proc n ( n : - 7 .. - 7\nstops 0 | .. read * .. >= 7 <>\n\
    deep 203 | for n := {200 -} - 7 mod - n mod 7 + +\nstops 4 | n ( ( 7\nstops 2 | while - = * div while\n\
    stops 201 | n[{199 -} print else array mod 7 : ) limit := else < *\nstops 3 | print 7 ; then <> ] :=\n\
    stops 4 | n [ - (\ndeep 205 | n(n, {200 (} 7 * - ( ( - n mod\nstops 3 | print ( (\nstops 1 | read\n\
    stops 203 | n[{199 -} ( n\nstops 12 | read n [ ( 7 ) mod ( - ( n )\nstops 4 | n := 7 div\n\
    deep 203 | print {198 (}n * 7 + - n - - = + var =\nstops 0 | <>\nstops 3 | for n := read mod + ; := <> )\n\
    deep 404 | n({200 -}n, {199 -} - - 7 mod\nstops 7 | while n div ( 7 + -\n\
    stops 1 | while else 7 , limit for * [ n array\ndeep 406 | for n := {200 -}n to {199 -} n mod - := read div\n\
    stops 1 | var <> [ [ = :\nstops 4 | array n [ 7 if print print : end\n\
    deep 521 | {64 if n < n then }print {200 -} ( n\nstops 9 | var n : 7 .. 7 ; while -\n\
    stops 3 | proc n ( mod <= end\ndeep 206 | n[n] := {200 -} 7 div ( (\nstops 0 | do ( var ; then [ - to then (\n\
    stops 9 | read n ; read n [ n + 7\ndeep 202 | print {199 -} 7 + ( -\n\
    stops 2 | while - while array := to n [ < var\nstops 1 | while * read\n\
    stops 441 | {62 while n < n limit 7 do }if n = n then else for\nstops 3 | if - n\n\
    stops 7 | for n := 7 * n div\ndeep 201 | print {200 -} - - then end read end <>\n\
    stops 0 | , limit to end while div while print while ]\nstops 4 | print 7 * (\nstops 3 | var n : do\n\
    stops 1 | print do (\nstops 8 | print 7 - 7 + 7 ; while\n\
    deep 521 | {64 if n < n then }print {200 -} ( ( - n mod ( 7 div -\nstops 8 | proc n ( n : - 7 ..\n\
    stops 5 | proc n ( ) var\ndeep 203 | n[{200 (}n mod read\nstops 7 | print - n - - n - mod\n\
    stops 10 | proc n ( ) var n : 7 .. 7\nstops 3 | var n :\nstops 4 | if 7 = (\nstops 4 | read n [ -\n\
    deep 201 | if {200 (} ( 7 ) mod 7 *\nstops 9 | read n ; read n [ 7 + n\n\
    stops 1 | if proc print mod do - * array var ) to ;\n\
    stops 451 | {64 for n := 7 to n do } read n [ do < < ] >= do ]\nstops 5 | read n [ ( -\n\
    stops 4 | while - ( n > : n\ndeep 202 | print {199 -} - 7 * n div 7 + - var while <\nstops 2 | while n\n\
    stops 12 | print n mod 7 + - ( - ( - - -\ndeep 203 | print {200 (}7 ) - ( 7 - ( 7\n\
    stops 3 | proc n ( * end <= ] while do + to -\nstops 0 | ; ..\n\
    stops 444 | {62 while n < n limit 7 do }if n = n then else if - - n\nstops 7 | n ( 7 mod - - (\n\
    stops 2 | n [ limit = , := else to\nstops 400 | print {100 n[}7{99 *n} <= do else mod <= end ; div >=\n\
    stops 12 | for n := ( - 7 + 7 * ( 7 -\nstops 6 | proc n ( n : 7\n\
    deep 522 | {64 if n < n then }print {200 -} 7 +\nstops 12 | n := - 7 - n * n div 7 div 7\n\
    stops 0 | <= while then else > else > : .. .. < =\ndeep 405 | for n := {200 -}n to {199 -} - - - ( -\n\
    stops 0 | do = , n : then print to ) n\nstops 3 | print ( n array * + .. for\n\
    stops 391 | {64 if n < n then }{64 end } print 7 * n * ( (\nstops 7 | proc n ( ) do end if ]\n\
    stops 6 | if - ( n mod 7\ndeep 407 | for n := {200 -}n to {199 -} 7 mod n - ( proc <\nstops 3 | if ( n\n\
    stops 1 | proc else <>\ndeep 402 | print 7{200  div n} [ 7 mod n ] - n\n\
    stops 12 | read n [ n * n * 7 div n div n\nstops 7 | proc n ( n : 7 .. <> + :\n\
    stops 403 | if {200 -}n < {199 -} n\nstops 2 | read n ( , ; print end mod then for end\n\
    stops 2 | var n = <= n limit limit to read [ =\ndeep 320 | {64 if n < n then } while 7 - ( n\n\
    stops 3 | while n >=\nstops 8 | n [ - ( n * - -\ndeep 204 | n[{200 (}n ) mod 7 - ( - ( - -\n\
    stops 8 | read n ; for n := n [ , then\nstops 1 | while :=\n\
    stops 410 | for n := {200 -}n to {199 -} n + 7 do if ( limit , var while\nstops 8 | n ( - n div n [ n\n\
    stops 0 | , for : print print , else <> ]\ndeep 204 | for n := {200 -} n + n + n + 7 * n *\n\
    stops 4 | print n div ( < if ] else var div\nstops 0 | = , * := := n , ; if [ +\n\
    deep 403 | if {200 -}n < {199 -} ( - 7 * - 7 -\nstops 5 | while - - n <\nstops 9 | for n := n to - 7 do read\n\
    stops 202 | if {200 (} n < <>\nstops 12 | for n := 7 - 7 * - ( ( 7 div\nstops 7 | array n [ 7 ] : - var end\n\
    deep 201 | print {200 -} - - - n mod - ( n ) ;\nstops 8 | read n ; while 7 - n =\n\
    stops 1 | for proc <> : mod limit = while\nstops 405 | n({200 -}n, {199 -} n ,\nstops 3 | n [ n\n\
    stops 5 | n ( n , n\nstops 400 | print {100 n[}7{99 *n} , (\nstops 9 | if - - n <= - ( 7 +\n\
    stops 3 | read n [ then : while ) limit < * 7 div\ndeep 204 | n[{200 (}n ) - ( 7 mod - (\n\
    stops 9 | while - 7 = ( ( ( 7 +\nstops 12 | n [ ( n + n mod n - 7 + (\ndeep 201 | if {200 (} ( 7 div - > ; <\n\
    stops 6 | for n := ( - n\nstops 1 | print limit := else read then =\ndeep 203 | for n := {200 -} - 7 mod\n\
    stops 0 | > array read [ * for proc print read\nok | var n : - 7 .. 7 ;\n\
    deep 203 | n[{200 (}n [ 7 div ( 7 div ( - 7 ) *\nstops 10 | var n : - 7 .. - 7 ; if = >=\n\
    stops 4 | proc n ( )\ndeep 202 | if {200 (} 7 + - * then\nstops 9 | var n : 7 .. 7 ; if (\n\
    stops 5 | n := ( ( n\ndeep 405 | if {200 -}n < {199 -} 7 div n div (\nstops 2 | print (\n\
    stops 8 | if 7 >= - ( 7 + (\nstops 404 | for n := {200 -}n to {199 -} end ) <> ; array while + + := limit =\n\
    stops 7 | n [ 7 * n ] := to ) 7 +\nstops 5 | print - ( n - := div for end if limit\n\
    deep 404 | if {200 -}n < {199 -} - 7 mod - ( n - n + - - -\nstops 6 | while 7 = ( n )\n\
    stops 6 | var n : 7 .. -\nstops 202 | print {198 (}n div -\nstops 1 | n + then : to\n\
    stops 5 | print n mod ( -\ndeep 202 | print {199 -} 7 mod - ( (\nstops 0 | * div , , limit var else\n\
    stops 12 | proc n ( n : 7 .. - 7 ) do read\ndeep 206 | n[n] := {200 -} n - ( - n * -\n\
    stops 7 | print - 7 + - - n\nstops 2 | array n if * else 7 then := :=\ndeep 201 | if {200 (} ( n - -\n\
    stops 5 | for n := n to\nstops 5 | read n [ ( n limit print >=\ndeep 202 | print {200 (}7 + 7 + ( 7 - 7 *\n\
    stops 2 | if (\nstops 4 | for n := 7 array else [ * n =\n\
    deep 325 | proc n() do {64 if n < n then } if if proc var : + else :\nstops 11 | var n : - 7 .. - 7 ; var n\n\
    stops 3 | if ( (\nstops 211 | var n: -7..-7; print {200 -} n\nstops 12 | if 7 - n - 7 mod - ( n * (\n\
    stops 12 | read n ; for n := ( 7 ) to - -\ndeep 204 | n[{199 -} n mod 7 div - - ( -\nstops 4 | n ( 7 div\n\
    stops 0 | ) for var 7 proc var for\nstops 5 | while 7 <= ( n\nstops 6 | print n [ - - (\n\
    stops 5 | read n ; while n\nstops 446 | {62 while n < n limit 7 do }if n = n then else for n := ( ( (\n\
    stops 1 | while : - var\nstops 6 | read n ; for n :=\n\
    stops 211 | var n: -7..-7; print {200 -} 7 ) for limit <= * for n\nstops 4 | for n := - to\nstops 3 | if n =\n\
    deep 204 | while n = {200 -} n +\nstops 3 | for n :=\nstops 0 | , <> <= := = :=\n\
    deep 205 | n[n] := {200 -} - n print div .. [ .. do * <> ( )\nstops 10 | for n := 7 - 7 * ( 7 + var ..\n\
    stops 3 | print ( - do\ndeep 204 | n(n, {200 (} ( - n mod n > <> ) div do\nstops 0 | ] >= , limit : ; := : )\n\
    stops 5 | if ( ( 7 mod print : var\ndeep 202 | print {200 (}7 + ( ( - to\nstops 6 | proc n ( n : -\n\
    stops 4 | proc n ( n ] ;\ndeep 522 | {64 if n < n then }print {200 -} n - 7 ; while 7 <= - -\n\
    stops 7 | read n ; n := 7 * read var mod\nstops 5 | for n := - 7\n\
    stops 384 | {64 if n < n then }{64 end } mod print for .. (\nstops 8 | var n : 7 .. 7 ; if\n\
    ok | array n [ 7 ] : - 7 .. 7 ;\nstops 450 | {64 for n := 7 to n do } n := <> + - + then print\n\
    stops 1 | array = while div 7 -\nstops 12 | for n := n + n + n - ( 7 *\n\
    deep 204 | read n[{200 -} n [ n + 7 : >= >= := proc ) n\nstops 9 | n := 7 ; n ( 7 - -\nstops 0 | then\n\
    stops 201 | if {200 (} > >= ; <> - , + n ) read mod +\nstops 9 | n [ 7 div n [ ( 7 mod > do\n\
    stops 11 | var n : - 7 .. - 7 ; print n\ndeep 201 | print {200 -} - - - ( n ) var + read print >= div\n\
    stops 1 | print div div < limit 7\nstops 3 | var n : read to ) ] < [ array >\n\
    stops 403 | if {200 -}n < {199 -} n if for mod :=\nstops 1 | print div + * div proc n ..\n\
    stops 1 | n do <= ; -\ndeep 404 | if {200 -}n < {199 -} n + - - ( - n\nstops 0 | - array ; + [\n\
    stops 6 | while 7 > - 7 * ) div array for , else\nstops 326 | {64 if n < n then } else print - ( n mod to\n\
    stops 2 | for n then 7 : [ do else >= ) [ then\nstops 3 | while ( n do ) array ..\n\
    stops 451 | {64 for n := 7 to n do } n ( 7\nstops 5 | if ( n - 7 = var print :=\n\
    stops 9 | read n [ 7 * ( 7 * 7\ndeep 203 | n[{199 -} - n div - n - n - - n\nstops 2 | proc n\n\
    stops 5 | proc n ( n :\nstops 201 | n[{199 -} > ) do ..\nstops 0 | end ..\nstops 6 | while 7 >= - n +\n\
    deep 203 | for n := {200 -} - n mod 7 +\nstops 6 | while n div 7 < -\nstops 9 | n ( ) ; for n := ( -\n\
    ok | read n[{200 -} n ] ;\nstops 4 | print ( - ( * while if =\nstops 7 | read n ; n [ n *\n\
    stops 321 | {64 if n < n then } read\nstops 6 | print - - ( 7 mod =\nstops 10 | while 7 <> - - n mod ( ( n\n\
    deep 521 | {64 if n < n then }print {200 -} - < ( to < ) for while array print\nstops 2 | read n div <\n\
    stops 4 | while n > -\ndeep 210 | var n: -7..-7; print {200 -} ( -\nstops 3 | proc n ( < := ( <\n\
    stops 5 | print ( n [ (\ndeep 448 | {64 for n := 7 to n do } if ( ( 7 - n div , * if .. )\n\
    stops 3 | while ( ( else while limit : >= ( - array\nstops 2 | proc n var , while print > div ) <\n\
    stops 386 | {64 if n < n then }{64 end } if -\nstops 5 | if n < 7 mod\nstops 7 | print ( - 7 ) ; print < 7\n\
    deep 404 | if {200 -}n < {199 -} n + - ( ( 7 mod\nstops 6 | if 7 * ( - n\n\
    stops 4 | if n - - else read ) proc\nstops 201 | print {198 (}n mod\n\
    stops 2 | if 7 if to > do do >= .. [ - :\nok | array n [ 7 ] : 7 .. - 7 ;\n\
    deep 521 | {64 if n < n then }print {200 -} -\nstops 10 | read n [ - - 7 - ( ( 7\nstops 1 | if < [ <= to\n\
    deep 204 | n[{199 -} 7 * 7 + 7\nstops 10 | print n - 7 div - n mod - n\n\
    stops 0 | - print ) * * .. * , , * [ array\ndeep 201 | if {200 (} ( - - -\nstops 2 | var n then read <> to\n\
    stops 4 | if 7 <> -\ndeep 211 | var n: -7..-7; print {200 -} 7 - ( n\nstops 3 | read n [\n\
    stops 4 | print n [ - if : then mod mod\ndeep 404 | n({200 -}n, {199 -} ( ( 7\nstops 9 | if ( - n * ( 7 - (\n\
    stops 7 | read n [ ( ( n mod proc <= ]\ndeep 201 | print {200 -} - - n [ - ( 7 := := do >\nstops 3 | n := -\n\
    stops 2 | read n < < limit then print ] ]\nstops 402 | print 7{199 +n} div 7\n\
    stops 10 | for n := 7 * 7 mod n [ (\nstops 7 | for n := ( n div n\ndeep 204 | while n = {200 -} 7 - n\n\
    stops 5 | n := n mod n\nstops 1 | while ; read <>\nstops 406 | for n := {200 -}n to {199 -} 7 -\n\
    stops 9 | for n := n [ ( - ( - print >\nstops 10 | if ( 7 * ( ( - - - ( do\n\
    deep 202 | print {200 (}7 - 7 * -\nstops 4 | print 7 - (\nstops 0 | end to : array n := div\n\
    deep 201 | print {200 -} ( ( n div\nstops 5 | read n ; print (\n\
    stops 3 | print 7 - .. end , limit else <> var ;\nstops 453 | {64 for n := 7 to n do } read n [ ( 7\n\
    stops 1 | array\nstops 3 | read n [ : , to proc * var\ndeep 204 | read n[{200 -} 7 + 7 * ( - while to n\n\
    stops 2 | array n 7 ..\nstops 9 | n ( n ) ; n ( - -\ndeep 203 | n[{200 (}n * ( ( 7 mod - ( - - ( ( -\n\
    stops 10 | var n : - 7 .. 7 ; for n\nstops 9 | proc n ( n : - 7 .. -\n\
    deep 201 | if {200 (} - ( - - n [ - - n div n -\nstops 6 | if ( n ) + 7\nstops 7 | while 7 <= n div 7 limit\n\
    deep 203 | for n := {200 -} - n to n mod - ( 7 + 7 then >\nstops 7 | print - ( ( 7 div -\n\
    stops 9 | for n := n * 7 to n [\ndeep 448 | {64 for n := 7 to n do } for n := n mod n to\n\
    stops 2 | proc n ) < + for mod >= ] - <=\nstops 0 | + <= for limit * , ; ) [ to +\n\
    stops 201 | print {199 -} -\nstops 9 | var n : 7 .. - 7 ; read\nstops 1 | for for >= ]\n\
    stops 326 | {64 if n < n then } else read n [ - n\nstops 0 | limit array\nstops 6 | print 7 - 7 * n\n\
    stops 200 | print {198 (}n array div ; do (\nstops 9 | read n ; for n := ( 7 -\n\
    stops 8 | proc n ( ) do print ( n\ndeep 320 | {64 if n < n then } while\n\
    stops 2 | if n else < : array - <= mod , ] end\nstops 3 | print n mod >= <= proc .. while < =\n\
    stops 203 | n[{199 -} 7 ]\nstops 5 | proc n ( ) do\nstops 7 | array n [ 7 ] : -\n\
    deep 405 | for n := {200 -}n to {199 -} ( (\nstops 5 | if - - ( (\nstops 5 | for n := - n\n\
    stops 401 | print {100 n[}7{99 *n} -\nstops 11 | for n := - ( n mod ( n ) div\nstops 2 | if 7 ( ] do\n\
    deep 405 | n({200 -}n, {199 -} 7 * ( n +\nstops 7 | n [ n * ( n [\nstops 7 | for n := ( ( ( n\n\
    stops 202 | n[{199 -} 7 to > < .. var 7 while\nstops 12 | read n [ 7 div n [ n [ - n -\n\
    stops 9 | for n := 7 to ( 7 - ( limit print >\ndeep 405 | n({200 -}n, {199 -} - 7 - -\n\
    stops 8 | proc n ( n : 7 .. 7\nstops 11 | var n : - 7 .. 7 ; for n :=\n\
    deep 210 | var n: -7..-7; print {200 -} ( array n ..\nstops 11 | for n := n - ( ( 7 ) * 7\n\
    stops 9 | print n * n div n [ - n then =\ndeep 203 | read n[{200 -} ( n\nstops 5 | for n := ( - <= then\n\
    stops 6 | read n [ 7 * 7\ndeep 203 | read n[{200 -} ( n - -\nok | array n [ 7 ] : 7 .. 7 ;\n\
    stops 0 | ; do := proc read\ndeep 210 | var n: -7..-7; print {200 -} - - n [ n - 7 - 7 mod\n\
    stops 8 | while - 7 - n <> 7 +\nstops 7 | var n : - 7 .. 7 n = if <\n\
    deep 521 | {64 if n < n then }print {200 -} - 7 mod 7 .. < + ) - >= end\nstops 4 | for n := n do ) array <\n\
    stops 2 | n [ read then while if to * mod\ndeep 203 | for n := {200 -} ( n [ -\n\
    stops 1 | n while mod <= * > end for := + >\nstops 0 | .. var proc > := end for else .. * .. *\n\
    deep 325 | proc n() do {64 if n < n then } for n := ( 7\n\
    ";
